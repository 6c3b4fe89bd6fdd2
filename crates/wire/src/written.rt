// Rows of a lent table that are written, whatever their row: one loop checks them, one stores their bytes.
ghost use Rattle.std.specs.Prelude.{ℕ, ◌≡◌, ◌+◌, ◌*◌, ◌-◌, ◌<◌, ◌≤◌, ◌^◌, List, length};
ghost use Rattle.wire.specs.Act.{Act};
ghost use Rattle.wire.specs.Act as A;
ghost use Rattle.wire.specs.Pen.{At, Checked, Quick, Ready, Filled};
ghost use Rattle.wire.specs.Spell.{PlainRows, PlainRun};

use super::pen::{Passed, Pen};

// The rows of a table, with all that they are written from. A method of row i has its first column beside it: a loop adds the columns of a row to it, where the compiler would multiply for each row that has rows of its own.
pub trait Rows {
    ghost columns: { ℕ };

    ghost table: { Self → List ℕ };
    // What row i is written as, the bytes that it makes at most, and what else it asks.
    ghost acts: { Self → ℕ → List Act };

    ghost most: { ℕ };

    ghost may: { Self → Type 0 };

    fn columns(&self) -> usize
        ensures { (result ≡ columns) × (result < 2 ^ 16) × (0 < result) };

    // The bytes of row i, or 0 if it has a fault: in almost every row nothing is wrong, and this is seen at once.
    fn plain(&self, i: usize, b: usize) -> usize
        requires { ((i + 1) * columns ≤ length (table self.now)) × may self.now × (b ≡ i * columns) }
        ensures { Quick (acts self.now i) most result };

    // Row i at the place n: its first fault, or the place behind it. What is asked of n leaves room for a row that has rows of its own.
    fn check(&self, n: usize, i: usize) -> Pen
        requires { ((i + 1) * columns ≤ length (table self.now)) × may self.now × (n + most < 2 ^ 30) }
        ensures { Checked (acts self.now i) most (At n) result };

    fn fill(&self, i: usize, b: usize, out: &mut [u8], n: usize) -> usize
        requires { ((i + 1) * columns ≤ length (table self.now)) × may self.now × Ready (acts self.now i) n out.old × (b ≡ i * columns) }
        ensures { Filled (acts self.now i) n out.old result out.new };
}

// The plain rows from `first` on before the first that is not, and their bytes.
pub fn plain_rows<R: Rows>(rows: &R, first: usize, count: usize) -> Passed
    requires { ((first + count) * R.Rows.columns ≤ length (R.Rows.table rows.now)) × R.Rows.may rows.now × (first + count < 2 ^ 32) × (R.Rows.most * count < 2 ^ 30) }
    ensures { PlainRows (λ i. R.Rows.acts rows.now (first + i)) R.Rows.most count result.rows result.bytes }
{
    let columns = rows.columns();
    let mut bytes: usize = 0;
    let mut b = first * columns;
    let mut left = count;
    // Counted down, the column beside it: as a `for` over rows it takes more instructions to write presets than the Rust takes.
    while 0 < left {
        let k = rows.plain(first + (count - left), b);
        if k == 0 {
            return Passed {
                rows: count - left,
                bytes,
            };
        }
        bytes += k;
        left -= 1;
        b += columns;
    }
    Passed { rows: count, bytes }
}

// The bytes of `count` rows from `first` on, or none if one has a fault. It does not say which: so the loop has but one count to keep.
pub fn plain_run<R: Rows>(rows: &R, first: usize, count: usize) -> Option<u32>
    requires { ((first + count) * R.Rows.columns ≤ length (R.Rows.table rows.now)) × R.Rows.may rows.now × (first + count < 2 ^ 32) × (R.Rows.most * count < 2 ^ 30) }
    ensures { PlainRun (λ i. R.Rows.acts rows.now (first + i)) R.Rows.most count result }
{
    let columns = rows.columns();
    let last = (first + count) * columns;
    let mut bytes: u32 = 0;
    let mut i: usize = 0;
    let mut b = first * columns;
    // By the column alone, which a `for` over rows would keep beside its count: a row that is all there is to a preset pays for both.
    while b < last {
        let k = rows.plain(first + i, b);
        if k == 0 {
            return None;
        }
        bytes += k as u32;
        i += 1;
        b += columns;
    }
    Some(bytes)
}

// `count` rows from `first` on; the row that is not plain is looked at again to name its fault.
pub fn check_rows<R: Rows>(rows: &R, n: usize, first: usize, count: usize) -> Pen
    requires { ((first + count) * R.Rows.columns ≤ length (R.Rows.table rows.now)) × R.Rows.may rows.now × (first + count < 2 ^ 32) × (n + R.Rows.most * count < 2 ^ 30) }
    ensures { Checked (A.rows (R.Rows.acts rows.now) first count) (R.Rows.most * count) (At n) result }
{
    let p = plain_rows(rows, first, count);
    let at = n + p.bytes;
    if p.rows < count {
        rows.check(at, first + p.rows)
    } else {
        Ok(at)
    }
}

// `count` rows from `first` on.
pub fn fill_rows<R: Rows>(rows: &R, first: usize, count: usize, out: &mut [u8], n: usize) -> usize
    requires { ((first + count) * R.Rows.columns ≤ length (R.Rows.table rows.now)) × R.Rows.may rows.now × (first + count < 2 ^ 32) × Ready (A.rows (R.Rows.acts rows.now) first count) n out.old }
    ensures { Filled (A.rows (R.Rows.acts rows.now) first count) n out.old result out.new }
{
    let columns = rows.columns();
    let last = (first + count) * columns;
    let mut at = n;
    let mut i = first;
    let mut b = first * columns;
    // By the column alone, as in `plain_run`.
    while b < last {
        at = rows.fill(i, b, out, at);
        i += 1;
        b += columns;
    }
    at
}
