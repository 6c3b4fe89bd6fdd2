// Reading switch groups: one pass measures them and counts their members, one fills tables 2 and 3 and tests nothing.
ghost use Rattle.std.specs.Prelude.{◌≡◌, ◌+◌, ◌*◌, ◌<◌, ◌≤◌, length};
ghost use mathlib.Core.List.{flatten};
ghost use Rattle.wire.specs.Bits.{part};
ghost use Rattle.wire.specs.Prog.{many};
ghost use Rattle.wire.specs.Layout.{Family, broken_row};
ghost use Rattle.switch_groups.specs.Layout.{switch_group, switch_group_list};
ghost use Rattle.switch_groups.specs.Rows.{switch_group_from};

use super::rows::{MEMBER_COLUMNS, SWITCH_GROUP_COLUMNS, SwitchGroup};
use pairs::parsing::fill_pairs;
use wire::bits::{part, wide};
use wire::ids::{GroupId, SwitchGroupId};
use wire::list::{Count, Nest};
use wire::reads::{Short, head};
use wire::rows::{Range, put_row};

// ---- measuring

// How many members follow the byte that counts them.
pub fn members_of(b: u16) -> u16
    ensures { (result ≡ part 0 5 b + 1) × (result ≤ 32) }
{
    part(b, 0, 5) + 1
}

// A row of table 2, as a list of them is measured, stored and tallied.
pub struct Switch;

// The members and the default are single bytes, so one comparison tells whether they are there.
impl Count for Switch {
    ghost Read = { Family };

    ghost reads = { λ _. switch_group_list };

    ghost kids = { λ _ x. length x.1 };

    ghost most = { 32 };

    fn kids(&self, body: &[u8], at: usize) -> Result<(usize, usize), Short> {
        let n = head(body, at, 2)?;
        let count = members_of(wide(body[at + 1])) as usize;
        let next = head(body, n, count + 1)?;
        Ok((count, next))
    }
}

// ---- filling: nothing is left to test

// A switch group from its three bytes of fields.
fn switch_group_from(id: u16, b: u16, default: u16, members: Range) -> SwitchGroup
    ensures { result ≡ switch_group_from id b default members }
{
    SwitchGroup {
        reserved_id: part(id, 7, 1),
        switch_group_id: SwitchGroupId(part(id, 2, 5)),
        allow_on_off: part(id, 1, 1),
        default_on_off: part(id, 0, 1),
        reserved_members: part(b, 5, 3),
        members,
        reserved_default: part(default, 7, 1),
        default_group_id: GroupId(part(default, 0, 7)),
    }
}

impl Nest for Switch {
    ghost Read = { Family };

    ghost reads = { λ _. switch_group_list };

    ghost may = { λ _ _. Unit {0} };

    ghost COLUMNS = { 9 };

    ghost KID_COLUMNS = { 2 };

    ghost size = { λ _ x. length x.1 };

    ghost columns = { λ _ n x. broken_row switch_group (n, x) };

    ghost kids = { λ _ x. flatten x.1 };

    const COLUMNS: usize = SWITCH_GROUP_COLUMNS;

    fn store(
        &self,
        body: &[u8],
        at: usize,
        outer: &mut [u16],
        to: usize,
        inner: &mut [u16],
        first: usize,
    ) -> (usize, usize) {
        let id = wide(body[at]);
        let b = wide(body[at + 1]);
        let count = members_of(b);
        let begins = at + 2;
        fill_pairs(body, begins, count as usize, inner, first * MEMBER_COLUMNS);
        let last = begins + (count as usize);
        let members = Range {
            first: first as u16,
            count,
        };
        let row = switch_group_from(id, b, wide(body[last]), members);
        put_row(outer, to, &row.columns());
        (last + 1, first + (row.members.count as usize))
    }
}
