// Writing groups: their bytes as numbers, the check pass, which counts plain rows, and the fill pass.
ghost use Rattle.std.specs.Prelude.{◌≡◌, ◌+◌, ◌*◌, ◌<◌, ◌≤◌, ◌^◌, length};
ghost use Rattle.wire.specs.Act.{rows};
ghost use Rattle.wire.specs.Pen.{Checked, Quick, Ready, Filled, At};
ghost use Rattle.wire.specs.Spell.{Spells, PlainRows};
ghost use Rattle.stream_groups.specs.Rows.{group_cols, group_of};
ghost use Rattle.stream_groups.specs.Write.{group_byte, location_byte, flags_of, placed_once, location_part, group_acts, row_acts};

use super::rows::{Auxiliary, GROUP_COLUMNS, MultiStreamGroup};
use wire::bits::{is_flag, pair, two_fit};
use wire::pen;
use wire::pen::{Fault, Pen};
use wire::spell::{check_all, fill_all, two};
use wire::written::Rows;

// ---- the bytes

fn group_byte(g: MultiStreamGroup) -> u32
    ensures { Spells (group_byte g) result }
{
    two(g.group_id.0, 7, g.is_in_main_stream, 1)
}

fn location_byte(a: Auxiliary) -> u32
    ensures { Spells (location_byte a) result }
{
    let l = a.location;
    two(l.is_in_ts, 1, l.auxiliary_stream_id, 7)
}

// ---- the check pass

// Its flags: isInTS counts only where the location is there.
fn flags_hold(g: MultiStreamGroup) -> bool
    ensures { result ≡ flags_of (group_cols g) }
{
    let a = g.auxiliary;
    let location = if a.present == 1 {
        is_flag(a.location.is_in_ts)
    } else {
        true
    };
    is_flag(g.is_in_main_stream) & (is_flag(a.present) & location)
}

// Whether the location is there exactly outside the main stream.
fn placed_once(g: MultiStreamGroup) -> bool
    ensures { result ≡ placed_once (group_cols g) }
{
    if g.is_in_main_stream == 0 {
        g.auxiliary.present == 1
    } else {
        g.auxiliary.present == 0
    }
}

// Flags, then the auxiliary mismatch, then each byte at its place.
fn check_group(n: usize, g: MultiStreamGroup) -> Pen
    requires { n < 2 ^ 31 }
    ensures { Checked (group_acts g) 2 (At n) result }
{
    let p0 = pen::demand(Ok(n), Fault::Field, flags_hold(g));
    let p1 = pen::demand(p0, Fault::Auxiliary, placed_once(g));
    let p2 = check_all(p1, true, &[group_byte(g)]);
    check_all(p2, g.auxiliary.present == 1, &[location_byte(g.auxiliary)])
}

// The bytes of the row at the column `b`, or 0 if it has a fault: in almost every row nothing is wrong, and this is seen at once.
fn plain_bytes(groups: &[u16], b: usize) -> usize
    requires { b + 5 ≤ length groups.now }
    ensures { Quick (group_acts (group_of groups.now b)) 2 result }
{
    if 128 <= groups[b] {
        return 0;
    }
    // isInMainStream and the location's flag: in the main stream and none, or the other way round
    let flags = pair(groups[b + 1], groups[b + 2]);
    if flags == 1 {
        return 1;
    }
    if flags == 65536 {
        if two_fit(groups[b + 3], 1, groups[b + 4], 7) {
            return 2;
        }
    }
    0
}

// ---- the fill pass

fn fill_location(a: Auxiliary, out: &mut [u8], n: usize) -> usize
    requires { Ready (location_part a) n out.old }
    ensures { Filled (location_part a) n out.old result out.new }
{
    if a.present == 1 {
        fill_all(out, n, true, &[location_byte(a)])
    } else {
        n
    }
}

fn fill_group(g: MultiStreamGroup, out: &mut [u8], n: usize) -> usize
    requires { Ready (group_acts g) n out.old }
    ensures { Filled (group_acts g) n out.old result out.new }
{
    let n1 = fill_all(out, n, true, &[group_byte(g)]);
    fill_location(g.auxiliary, out, n1)
}

// ---- the rows of table 8

// The rows that are written.
#[derive(Clone, Copy)]
pub struct Groups<'a> {
    pub groups: &'a [u16],
}

impl Rows for Groups<'_> {
    ghost columns = { 5 };

    ghost table = { λ t. t.groups.now };

    ghost acts = { λ t i. row_acts t.groups.now i };

    ghost most = { 2 };

    ghost may = { λ _. Unit {0} };

    fn columns(&self) -> usize {
        GROUP_COLUMNS
    }

    // By the row's number: with the column `b` the compiler loads one more value for each row.
    fn plain(&self, i: usize, b: usize) -> usize {
        plain_bytes(self.groups, i * GROUP_COLUMNS)
    }

    // Only a row with a fault comes here. Kept out of the loop over the plain rows, it leaves them the registers.
    #[cold]
    fn check(&self, n: usize, i: usize) -> Pen {
        check_group(
            n,
            MultiStreamGroup::of_columns(self.groups, i * GROUP_COLUMNS),
        )
    }

    fn fill(&self, i: usize, b: usize, out: &mut [u8], n: usize) -> usize {
        let g = MultiStreamGroup::of_columns(self.groups, b);
        fill_group(g, out, n)
    }
}
