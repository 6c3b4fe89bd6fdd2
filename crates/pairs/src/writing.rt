// Writing the pairs of a range: the byte of each as a number, the check pass and the fill pass.
ghost use Rattle.std.specs.Prelude.{◌≡◌, ◌+◌, ◌*◌, ◌<◌, ◌≤◌, ◌^◌, length};
ghost use Rattle.wire.specs.Bits.{fit};
ghost use Rattle.wire.specs.Act.{rows};
ghost use Rattle.wire.specs.Pen.{Checked, Ready, Filled, At};
ghost use Rattle.wire.specs.Spell.{Spells, PlainRows};
ghost use Rattle.pairs.specs.Write.{pair_fields, pair_acts};

use super::PAIR_COLUMNS;
use wire::bits::two_fit;
use wire::pen::{Fault, Pen, Stopped};
use wire::rows::Range;
use wire::spell::{check_all, fill_all, two};
use wire::written::{Rows, fill_rows, plain_rows};

// The byte of a row, whose first column is `b`.
fn pair_byte(table: &[u16], row: usize, b: usize) -> u32
    requires { ((row + 1) * 2 ≤ length table.now) × (b ≡ row * 2) }
    ensures { Spells (pair_fields table.now row) result }
{
    two(table[b], 1, table[b + 1], 7)
}

// Whether the fields of a row fit, asked without making its byte.
fn pair_fits(table: &[u16], row: usize, b: usize) -> bool
    requires { ((row + 1) * 2 ≤ length table.now) × (b ≡ row * 2) }
    ensures { result ≡ fit (pair_fields table.now row) }
{
    two_fit(table[b], 1, table[b + 1], 7)
}

// The rows of the table that are written.
#[derive(Clone, Copy)]
pub struct Pairs<'a> {
    pub table: &'a [u16],
}

impl Rows for Pairs<'_> {
    ghost columns = { 2 };

    ghost table = { λ t. t.table.now };

    ghost acts = { λ t i. pair_acts t.table.now i };

    ghost most = { 1 };

    ghost may = { λ _. Unit {0} };

    fn columns(&self) -> usize {
        PAIR_COLUMNS
    }

    fn plain(&self, i: usize, b: usize) -> usize {
        if pair_fits(self.table, i, b) { 1 } else { 0 }
    }

    fn check(&self, n: usize, i: usize) -> Pen {
        check_all(Ok(n), true, &[pair_byte(self.table, i, i * PAIR_COLUMNS)])
    }

    fn fill(&self, i: usize, b: usize, out: &mut [u8], n: usize) -> usize {
        fill_all(out, n, true, &[pair_byte(self.table, i, b)])
    }
}

// The plain rows of a range before the first that is not; each is one byte.
pub fn plain_pairs(r: Range, table: &[u16]) -> usize
    requires { (r.first + r.count) * 2 ≤ length table.now }
    ensures { PlainRows (λ j. pair_acts table.now (r.first + j)) 1 r.count result result }
{
    plain_rows(&Pairs { table }, r.first as usize, r.count as usize).rows
}

// The rows of a range; only a field can be wrong with one, so that none has to be looked at again.
pub fn check_pairs(n: usize, r: Range, table: &[u16]) -> Pen
    requires { ((r.first + r.count) * 2 ≤ length table.now) × (n < 2 ^ 31) }
    ensures { Checked (rows (pair_acts table.now) r.first r.count) r.count (At n) result }
{
    let k = plain_pairs(r, table);
    if k < (r.count as usize) {
        Err(Stopped(Fault::Field, n + k))
    } else {
        Ok(n + k)
    }
}

pub fn fill_pairs(r: Range, table: &[u16], out: &mut [u8], n: usize) -> usize
    requires { ((r.first + r.count) * 2 ≤ length table.now) × Ready (rows (pair_acts table.now) r.first r.count) n out.old }
    ensures { Filled (rows (pair_acts table.now) r.first r.count) n out.old result out.new }
{
    fill_rows(&Pairs { table }, r.first as usize, r.count as usize, out, n)
}
