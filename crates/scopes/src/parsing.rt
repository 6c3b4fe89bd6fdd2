// Reading a scope: its type byte tells whether an ID follows; then it is taken, and nothing is tested.
ghost use Rattle.std.specs.Prelude.{◌≡◌, ◌+◌, ◌≤◌, length, get_or};
ghost use Rattle.wire.specs.Bits.{part};
ghost use Rattle.wire.specs.Layout.{row, blank, has};
ghost use Rattle.wire.specs.Straight.{taken};
ghost use Rattle.scopes.specs.Layout.{case_at, scope};
ghost use Rattle.scopes.specs.Rows.{id_bytes, scope_at, typed_row};

use super::rows::DrcScope;
use wire::bits::{part, wide};
use wire::ids::{GroupId, GroupPresetId};

// The case of a type: 0 plain, 1 with a group ID, 2 with a preset ID. A number, as in the layout (`case_at`).
pub fn case_of(types: &[u16], kind: u16) -> u16
    ensures { result ≡ case_at types.now kind }
{
    if 3 < kind {
        return 0;
    }
    if types.contains(&kind) {
        return 1;
    }
    if kind == 3 { 2 } else { 0 }
}

// The bytes of an ID behind a type: one, or none.
pub fn id_bytes(types: &[u16], kind: u16) -> usize
    ensures { (result ≡ id_bytes types.now kind) × (result ≤ 1) }
{
    if case_of(types, kind) == 0 { 0 } else { 1 }
}

// A scope with the reserved bits of its type byte.
#[derive(Clone, Copy, PartialEq, Eq)]
pub struct Typed {
    pub reserved_type: u16,
    pub scope: DrcScope,
}

// The scope of a type, whose ID, if it has one, begins here.
fn scope_of(body: &[u8], at: usize, types: &[u16], kind: u16) -> DrcScope
    requires { at + id_bytes types.now kind ≤ length body.now }
    ensures { result ≡ scope_at types.now body.now at kind }
{
    let case = case_of(types, kind);
    if case == 1 {
        let id = wide(body[at]);
        return DrcScope::Group {
            kind,
            reserved: part(id, 7, 1),
            group_id: GroupId(part(id, 0, 7)),
        };
    }
    if case == 2 {
        let id = wide(body[at]);
        return DrcScope::Preset {
            reserved: part(id, 5, 3),
            preset_id: GroupPresetId(part(id, 0, 5)),
        };
    }
    DrcScope::Plain(kind)
}

// A scope that was measured, from its type byte on.
pub fn scope_at(body: &[u8], at: usize, types: &[u16]) -> Typed
    requires { at + (1 + id_bytes types.now (part 0 2 (get_or body.now at 0))) ≤ length body.now }
    ensures { typed_row result ≡ row 5 (taken (scope types.now) blank body.now at) }
{
    let b = wide(body[at]);
    let kind = part(b, 0, 2);
    Typed {
        reserved_type: part(b, 2, 6),
        scope: scope_of(body, at + 1, types, kind),
    }
}
