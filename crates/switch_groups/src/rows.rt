// The rows of tables 2 and 3, with their constructors. The README names `columns` and `of_columns`, so they stand where `From` would.
ghost use Rattle.std.specs.Prelude.{◌≡◌, ◌+◌, ◌≤◌, length};
ghost use Rattle.wire.specs.Bits.{bit};
ghost use Rattle.switch_groups.specs.Rows.{member_row, member_of, switch_group_row, switch_group_of};

use wire::bits::{flag, ones, wide};
use wire::ids::{GroupId, SwitchGroupId};
use wire::rows::Range;

// One member of a switch group.
#[derive(Clone, Copy, PartialEq, Eq)]
pub struct SwitchGroupMember {
    pub reserved: u16,
    pub member_id: GroupId,
}

// The columns of a row of table 3.
pub const MEMBER_COLUMNS: usize = 2;

impl SwitchGroupMember {
    // Reserved bit 1.
    pub fn new(member_id: GroupId) -> Self
        ensures { result ≡ record { reserved = 1; member_id = member_id } }
    {
        Self {
            reserved: wide(ones(1)),
            member_id,
        }
    }

    pub fn columns(self) -> [u16; MEMBER_COLUMNS]
        ensures { result ≡ member_row self }
    {
        [self.reserved, self.member_id.0]
    }

    // The row whose first column is `b`.
    pub fn of_columns(t: &[u16], b: usize) -> Self
        requires { b + 2 ≤ length t.now }
        ensures { result ≡ member_of t.now b }
    {
        Self {
            reserved: t[b],
            member_id: GroupId(t[b + 1]),
        }
    }
}

// A switch group: its members are rows of table 3.
#[derive(Clone, Copy, PartialEq, Eq)]
pub struct SwitchGroup {
    pub reserved_id: u16,
    pub switch_group_id: SwitchGroupId,
    pub allow_on_off: u16,
    pub default_on_off: u16,
    pub reserved_members: u16,
    pub members: Range,
    pub reserved_default: u16,
    pub default_group_id: GroupId,
}

// The columns of a row of table 2.
pub const SWITCH_GROUP_COLUMNS: usize = 9;

impl SwitchGroup {
    // Reserved bits all ones.
    pub fn new(
        switch_group_id: SwitchGroupId,
        allow_on_off: bool,
        default_on_off: bool,
        members: Range,
        default_group_id: GroupId,
    ) -> Self
        ensures { result ≡ record { reserved_id = 1; switch_group_id = switch_group_id; allow_on_off = bit allow_on_off; default_on_off = bit default_on_off; reserved_members = 7; members = members; reserved_default = 1; default_group_id = default_group_id } }
    {
        Self {
            reserved_id: wide(ones(1)),
            switch_group_id,
            allow_on_off: flag(allow_on_off),
            default_on_off: flag(default_on_off),
            reserved_members: wide(ones(3)),
            members,
            reserved_default: wide(ones(1)),
            default_group_id,
        }
    }

    pub fn columns(self) -> [u16; SWITCH_GROUP_COLUMNS]
        ensures { result ≡ switch_group_row self }
    {
        [
            self.reserved_id,
            self.switch_group_id.0,
            self.allow_on_off,
            self.default_on_off,
            self.reserved_members,
            self.members.first,
            self.members.count,
            self.reserved_default,
            self.default_group_id.0,
        ]
    }

    // The row whose first column is `b`.
    pub fn of_columns(t: &[u16], b: usize) -> Self
        requires { b + 9 ≤ length t.now }
        ensures { result ≡ switch_group_of t.now b }
    {
        Self {
            reserved_id: t[b],
            switch_group_id: SwitchGroupId(t[b + 1]),
            allow_on_off: t[b + 2],
            default_on_off: t[b + 3],
            reserved_members: t[b + 4],
            members: Range {
                first: t[b + 5],
                count: t[b + 6],
            },
            reserved_default: t[b + 7],
            default_group_id: GroupId(t[b + 8]),
        }
    }
}
