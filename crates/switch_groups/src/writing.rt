// Writing switch groups: their bytes as numbers, the check pass with a quick test of a plain row, and the fill pass. How far a pen may be is asked as in `wire::pen`.
ghost use Rattle.std.specs.Prelude.{◌≡◌, ◌&&◌, map, ◌*◌, ◌<◌, ◌^◌};
ghost use Rattle.wire.specs.Layout.{field_of, family_acts};
ghost use Rattle.wire.specs.Pen.{Checked, Quick, Ready, Filled};
ghost use Rattle.wire.specs.Spell.{fit_all, Spells, Spelt};
ghost use Rattle.wire.specs.Pen.{At};
ghost use Rattle.switch_groups.specs.Layout.{member, switch_group};
ghost use Rattle.switch_groups.specs.Rows.{switch_group_cols, id_cells};
ghost use Rattle.switch_groups.specs.Write.{head_fields, default_fields, switch_group_acts};

use super::rows::{MEMBER_COLUMNS, SWITCH_GROUP_COLUMNS, SwitchGroup};
use pairs::writing::{check_pairs, fill_pairs, plain_pairs};
use wire::bits::{fits, four_fit, is_flag, less_one, two_fit};
use wire::pen;
use wire::pen::{Fault, Pen};
use wire::rows::in_table;
use wire::spell::{Joined, check_all, fill_all, two};
use wire::written::Rows;

// ---- the bytes

fn id_byte(g: SwitchGroup) -> u32
    ensures { Spells (map (field_of (switch_group_cols g)) id_cells) result }
{
    let a = Joined::none().field(g.reserved_id, 1);
    let b = a.field(g.switch_group_id.0, 5);
    b.field(g.allow_on_off, 1)
        .field(g.default_on_off, 1)
        .spelt()
}

fn head_bytes(g: SwitchGroup) -> [u32; 2]
    ensures { Spelt (head_fields g) result }
{
    [
        id_byte(g),
        two(g.reserved_members, 3, less_one(g.members.count), 5),
    ]
}

fn default_bytes(g: SwitchGroup) -> [u32; 1]
    ensures { Spelt (default_fields g) result }
{
    [two(g.reserved_default, 1, g.default_group_id.0, 7)]
}

// ---- the check pass

// Range, flags and an empty list at the start of the row, then each byte at its place.
fn check_switch_group(n: usize, g: SwitchGroup, members: &[u16]) -> Pen
    requires { n < 2 ^ 30 }
    ensures { Checked (switch_group_acts members.now g) 35 (At n) result }
{
    let inside = in_table(g.members, members, MEMBER_COLUMNS);
    let p0 = pen::demand(Ok(n), Fault::Range, inside);
    let flags = is_flag(g.allow_on_off) & is_flag(g.default_on_off);
    let p1 = pen::demand(p0, Fault::Field, flags);
    let p2 = pen::demand(p1, Fault::Empty, 1 <= g.members.count);
    let p3 = check_all(p2, true, &head_bytes(g));
    let m = p3?;
    let p4 = check_pairs(m, g.members, members);
    check_all(p4, true, &default_bytes(g))
}

// Whether its own fields fit, columns that stand together by one test. The count is stored minus one, so 32 fits its five bits.
fn fields_fit(g: SwitchGroup) -> bool
    ensures { result ≡ fit_all (head_fields g) && fit_all (default_fields g) }
{
    four_fit(
        g.reserved_id,
        1,
        g.switch_group_id.0,
        5,
        g.allow_on_off,
        1,
        g.default_on_off,
        1,
    ) && fits(g.reserved_members, 3)
        && g.members.count <= 32
        && two_fit(g.reserved_default, 1, g.default_group_id.0, 7)
}

// Its bytes, or 0 if it has a fault: in almost every row nothing is wrong, and this is seen at once. A flag is a field of one bit and the count one of five, so the fields tell.
fn plain_bytes(g: SwitchGroup, members: &[u16]) -> usize
    ensures { Quick (switch_group_acts members.now g) 35 result }
{
    let counted = in_table(g.members, members, MEMBER_COLUMNS) & (1 <= g.members.count);
    if counted && fields_fit(g) {
        let count = g.members.count as usize;
        if plain_pairs(g.members, members) == count {
            return 3 + count;
        }
    }
    0
}

// ---- the fill pass

fn fill_switch_group(g: SwitchGroup, members: &[u16], out: &mut [u8], n: usize) -> usize
    requires { Ready (switch_group_acts members.now g) n out.old }
    ensures { Filled (switch_group_acts members.now g) n out.old result out.new }
{
    let n1 = fill_all(out, n, true, &head_bytes(g));
    let n2 = fill_pairs(g.members, members, out, n1);
    fill_all(out, n2, true, &default_bytes(g))
}

// ---- the rows of table 2

// The rows that are written, with their members.
#[derive(Clone, Copy)]
pub struct Switches<'a> {
    pub switch_groups: &'a [u16],
    pub members: &'a [u16],
}

impl Rows for Switches<'_> {
    ghost columns = { 9 };

    ghost table = { λ t. t.switch_groups.now };

    ghost acts = { λ t i. family_acts switch_group 2 member t.switch_groups.now t.members.now i };

    ghost most = { 35 };

    ghost may = { λ _. Unit {0} };

    fn columns(&self) -> usize {
        SWITCH_GROUP_COLUMNS
    }

    fn plain(&self, i: usize, b: usize) -> usize {
        let g = SwitchGroup::of_columns(self.switch_groups, b);
        plain_bytes(g, self.members)
    }

    fn check(&self, n: usize, i: usize) -> Pen {
        let g = SwitchGroup::of_columns(self.switch_groups, i * SWITCH_GROUP_COLUMNS);
        check_switch_group(n, g, self.members)
    }

    fn fill(&self, i: usize, b: usize, out: &mut [u8], n: usize) -> usize {
        let g = SwitchGroup::of_columns(self.switch_groups, b);
        fill_switch_group(g, self.members, out, n)
    }
}
