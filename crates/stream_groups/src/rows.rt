// The rows of table 8, with their constructors. The README names `columns` and `of_columns`, so they stand where `From` would.
ghost use Rattle.std.specs.Prelude.{◌≡◌, ◌+◌, ◌≤◌, length};
ghost use Rattle.wire.specs.Bits.{bit};
ghost use Rattle.stream_groups.specs.Rows.{absent_auxiliary, present_auxiliary, in_main, in_auxiliary, group_row, group_of};

use wire::bits::{flag, wide};
use wire::ids::GroupId;

// isInTS and auxiliaryStreamID of a group that an auxiliary stream carries.
#[derive(Clone, Copy, PartialEq, Eq)]
pub struct AuxiliaryLocation {
    pub is_in_ts: u16,
    pub auxiliary_stream_id: u16,
}

impl AuxiliaryLocation {
    pub fn new(is_in_ts: bool, auxiliary_stream_id: u8) -> Self
        ensures { result ≡ record { is_in_ts = bit is_in_ts; auxiliary_stream_id = auxiliary_stream_id } }
    {
        Self {
            is_in_ts: flag(is_in_ts),
            auxiliary_stream_id: wide(auxiliary_stream_id),
        }
    }
}

// The auxiliary location of a group, where there is one.
// `present` is a column, not an Option: `group_of` gives any number that is lent, and writing refuses one above 1.
#[derive(Clone, Copy, PartialEq, Eq)]
pub struct Auxiliary {
    pub present: u16,
    pub location: AuxiliaryLocation,
}

impl Auxiliary {
    pub fn absent() -> Self
        ensures { result ≡ absent_auxiliary }
    {
        Self {
            present: 0,
            location: AuxiliaryLocation {
                is_in_ts: 0,
                auxiliary_stream_id: 0,
            },
        }
    }

    pub fn at(location: AuxiliaryLocation) -> Self
        ensures { result ≡ present_auxiliary location }
    {
        Self {
            present: 1,
            location,
        }
    }
}

// A row of table 8: one mae_groupID entry.
#[derive(Clone, Copy, PartialEq, Eq)]
pub struct MultiStreamGroup {
    pub group_id: GroupId,
    pub is_in_main_stream: u16,
    pub auxiliary: Auxiliary,
}

// The columns of a row of table 8.
pub const GROUP_COLUMNS: usize = 5;

impl MultiStreamGroup {
    // A group that the main stream carries.
    pub fn in_main_stream(group_id: GroupId) -> Self
        ensures { result ≡ in_main group_id }
    {
        Self {
            group_id,
            is_in_main_stream: 1,
            auxiliary: Auxiliary::absent(),
        }
    }

    // A group that an auxiliary stream carries.
    pub fn in_auxiliary_stream(group_id: GroupId, auxiliary: AuxiliaryLocation) -> Self
        ensures { result ≡ in_auxiliary group_id auxiliary }
    {
        Self {
            group_id,
            is_in_main_stream: 0,
            auxiliary: Auxiliary::at(auxiliary),
        }
    }

    pub fn columns(self) -> [u16; GROUP_COLUMNS]
        ensures { result ≡ group_row self }
    {
        [
            self.group_id.0,
            self.is_in_main_stream,
            self.auxiliary.present,
            self.auxiliary.location.is_in_ts,
            self.auxiliary.location.auxiliary_stream_id,
        ]
    }

    // The row whose first column is `b`.
    pub fn of_columns(t: &[u16], b: usize) -> Self
        requires { b + 5 ≤ length t.now }
        ensures { result ≡ group_of t.now b }
    {
        Self {
            group_id: GroupId(t[b]),
            is_in_main_stream: t[b + 1],
            auxiliary: Auxiliary {
                present: t[b + 2],
                location: AuxiliaryLocation {
                    is_in_ts: t[b + 3],
                    auxiliary_stream_id: t[b + 4],
                },
            },
        }
    }
}
