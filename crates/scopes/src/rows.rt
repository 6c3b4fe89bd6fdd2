// A scope and its four columns, with its constructors. The README names `columns` and `of_columns`, so they stand where `From` would.
ghost use Rattle.std.specs.Prelude.{◌≡◌, ◌+◌, ◌≤◌, length};
ghost use Rattle.scopes.specs.Rows.{scope_row, scope_of};

use wire::ids::{GroupId, GroupPresetId};

// What a row is about: no ID, a group or a preset. `Unknown` has a case above 2, which no body has and writing refuses.
#[derive(Clone, Copy, PartialEq, Eq)]
pub enum DrcScope {
    Plain(u16),
    Group {
        kind: u16,
        reserved: u16,
        group_id: GroupId,
    },
    Preset {
        reserved: u16,
        preset_id: GroupPresetId,
    },
    Unknown,
}

// The columns of a scope: case, kind, reserved, ID.
pub const SCOPE_COLUMNS: usize = 4;

impl DrcScope {
    // A type that carries a group ID: the reserved bit is 1.
    pub fn group(kind: u16, group_id: GroupId) -> Self
        ensures { result ≡ DrcScope.Group kind 1 group_id }
    {
        DrcScope::Group {
            kind,
            reserved: 1,
            group_id,
        }
    }

    // Type 3: the reserved bits are all ones.
    pub fn preset(preset_id: GroupPresetId) -> Self
        ensures { result ≡ DrcScope.Preset 7 preset_id }
    {
        DrcScope::Preset {
            reserved: 7,
            preset_id,
        }
    }

    // As reading leaves them: 0 for what a plain scope does not have, and a preset's kind is 3.
    pub fn columns(self) -> [u16; SCOPE_COLUMNS]
        ensures { result ≡ scope_row self }
    {
        match self {
            DrcScope::Plain(kind) => [0, kind, 0, 0],
            DrcScope::Group {
                kind,
                reserved,
                group_id,
            } => [1, kind, reserved, group_id.0],
            DrcScope::Preset {
                reserved,
                preset_id,
            } => [2, 3, reserved, preset_id.0],
            DrcScope::Unknown => [3, 0, 0, 0],
        }
    }

    // Of the four columns from `b` on. A lent case is any number.
    pub fn of_columns(t: &[u16], b: usize) -> Self
        requires { b + 4 ≤ length t.now }
        ensures { result ≡ scope_of t.now b }
    {
        let case = t[b];
        if case == 0 {
            return DrcScope::Plain(t[b + 1]);
        }
        if case == 1 {
            return DrcScope::Group {
                kind: t[b + 1],
                reserved: t[b + 2],
                group_id: GroupId(t[b + 3]),
            };
        }
        if case == 2 {
            return DrcScope::Preset {
                reserved: t[b + 2],
                preset_id: GroupPresetId(t[b + 3]),
            };
        }
        DrcScope::Unknown
    }
}
