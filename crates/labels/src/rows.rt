// A list of labels and its rows of table 7 (H.222.0 2.6.112, Table 2-124), with their constructors. The README names `columns` and `of_columns`, so they stand where `From` would.
ghost use Rattle.std.specs.Prelude.{◌≡◌, ◌+◌, ◌≤◌, length};
ghost use Rattle.labels.specs.Rows.{entry_row, entry_of, descriptions, descriptions_of};

use wire::bits::{ones, wide};
use wire::ids::{GroupId, GroupPresetId, SwitchGroupId};
use wire::rows::{Payload, Range};

// A row of table 7: one description. The list that it stands in says which of the three IDs it has.
#[derive(Clone, Copy, PartialEq, Eq)]
pub struct TextLabelEntry {
    pub reserved: u16,
    pub id: u16,
    pub data: Payload,
}

// The columns of a row of table 7.
pub const ENTRY_COLUMNS: usize = 4;

impl TextLabelEntry {
    // A group description: reserved bit 1.
    pub fn group(id: GroupId, data: Payload) -> Self
        ensures { result ≡ record { reserved = 1; id = id.0; «data» = «data» } }
    {
        Self {
            reserved: wide(ones(1)),
            id: id.0,
            data,
        }
    }

    // A switch group description: reserved bits all ones.
    pub fn switch_group(id: SwitchGroupId, data: Payload) -> Self
        ensures { result ≡ record { reserved = 7; id = id.0; «data» = «data» } }
    {
        Self {
            reserved: wide(ones(3)),
            id: id.0,
            data,
        }
    }

    // A group preset description: reserved bits all ones.
    pub fn preset(id: GroupPresetId, data: Payload) -> Self
        ensures { result ≡ record { reserved = 7; id = id.0; «data» = «data» } }
    {
        Self {
            reserved: wide(ones(3)),
            id: id.0,
            data,
        }
    }

    pub fn columns(self) -> [u16; ENTRY_COLUMNS]
        ensures { result ≡ entry_row self }
    {
        [self.reserved, self.id, self.data.offset, self.data.length]
    }

    // The row whose first column is `at`.
    pub fn of_columns(table: &[u16], at: usize) -> Self
        requires { at + 4 ≤ length table.now }
        ensures { result ≡ entry_of table.now at }
    {
        Self {
            reserved: table[at],
            id: table[at + 1],
            data: Payload {
                offset: table[at + 2],
                length: table[at + 3],
            },
        }
    }
}

// One of a language's three lists: the reserved bits before its count, and its rows of table 7.
#[derive(Clone, Copy, PartialEq, Eq)]
pub struct Descriptions {
    pub reserved: u16,
    pub entries: Range,
}

impl Descriptions {
    // Of groups: reserved bit 1.
    pub fn of_groups(entries: Range) -> Self
        ensures { result ≡ descriptions 1 entries }
    {
        Self {
            reserved: wide(ones(1)),
            entries,
        }
    }

    // Of switch groups or presets: reserved bits all ones.
    pub fn of_switch_groups_or_presets(entries: Range) -> Self
        ensures { result ≡ descriptions 7 entries }
    {
        Self {
            reserved: wide(ones(3)),
            entries,
        }
    }

    // The list whose first column is `at`.
    pub fn of_columns(table: &[u16], at: usize) -> Self
        requires { at + 3 ≤ length table.now }
        ensures { result ≡ descriptions_of table.now at }
    {
        Self {
            reserved: table[at],
            entries: Range {
                first: table[at + 1],
                count: table[at + 2],
            },
        }
    }
}
