// Lists of rows, whatever their row: each is measured, stored and tallied by one loop. A body and a position stay two arguments, as in `wire::reads`.
ghost use Rattle.std.specs.Prelude.{ℕ, ◌≡◌, true, ◌+◌, ◌*◌, ◌<◌, ◌≤◌, ◌^◌, List, length};
ghost use mathlib.Core.List.{flat_map};
ghost use Rattle.std.proofs.lemmas.List.Edits.{sets};
ghost use Rattle.wire.specs.Lists.{sum};
ghost use Rattle.wire.specs.Prog.{Prog, done, run, many};
ghost use Rattle.wire.specs.Reads.{end_of, ends_out, is_done, map_out, pos_of, rows_of, Summed};
ghost use Rattle.wire.specs.Nest.{Fillable, Nests, RowStored, RowNested};

use super::reads::Short;

// In each trait `reads` is the program of a row, and `Read` what that reads; `may` is what a row asks of the body beside being there.

// ---- measured

// A row that can be measured.
pub trait Measure {
    ghost Read: { Type 0 };

    ghost reads: { Self → Prog Read };

    // Where it ends.
    fn end(&self, body: &[u8], at: usize) -> Result<usize, Short>
        requires { at ≤ length body.now }
        ensures { ends_out result ≡ end_of (run (reads self.now) body.now at) };
}

// Where `count` rows end.
pub fn rows_end<R: Measure>(row: &R, body: &[u8], at: usize, count: usize) -> Result<usize, Short>
    requires { at ≤ length body.now }
    ensures { ends_out result ≡ end_of (run (many count (R.Measure.reads row.now)) body.now at) }
{
    let mut pos = at;
    for _ in 0..count {
        pos = row.end(body, pos)?;
    }
    Ok(pos)
}

// A row that has rows of another table.
pub trait Count {
    ghost Read: { Type 0 };

    ghost reads: { Self → Prog Read };

    ghost kids: { Self → Read → ℕ };

    ghost most: { ℕ };

    // How many, and where it ends.
    fn kids(&self, body: &[u8], at: usize) -> Result<(usize, usize), Short>
        requires { at ≤ length body.now }
        ensures { Summed (reads self.now) (kids self.now) most body.now at result };
}

// The rows of `count` rows, and where they end.
pub fn rows_kids<R: Count>(
    row: &R,
    body: &[u8],
    at: usize,
    count: usize,
) -> Result<(usize, usize), Short>
    requires { (at ≤ length body.now) × (R.Count.most * count < 2 ^ 32) }
    ensures { Summed (many count (R.Count.reads row.now)) (sum (R.Count.kids row.now)) (R.Count.most * count) body.now at result }
{
    let mut pos = at;
    let mut kids: usize = 0;
    for _ in 0..count {
        let (n, next) = row.kids(body, pos)?;
        kids += n;
        pos = next;
    }
    Ok((kids, pos))
}

// ---- stored, once measured

// A row that can be stored.
pub trait Store {
    ghost Read: { Type 0 };

    ghost reads: { Self → Prog Read };

    ghost may: { Self → List ℕ → Type 0 };

    const COLUMNS: usize;

    ghost COLUMNS: { ℕ };

    ghost columns: { Self → Read → List ℕ };

    // Stores it as the columns from `to` on, and says where it ends.
    fn store(&self, body: &[u8], at: usize, table: &mut [u16], to: usize) -> usize
        requires { (at ≤ length body.now) × (is_done (run (reads self.now) body.now at) ≡ true) × may self.now body.now × (to + COLUMNS ≤ length table.old) }
        ensures { RowStored (reads self.now) (columns self.now) COLUMNS body.now at table.old to result table.new };
}

// Stores `count` rows from column `column` of their table on, and says where they end.
pub fn store_rows<R: Store>(
    row: &R,
    body: &[u8],
    at: usize,
    count: usize,
    table: &mut [u16],
    column: usize,
) -> usize
    requires { (at ≤ length body.now) × (is_done (run (many count (R.Store.reads row.now)) body.now at) ≡ true) × R.Store.may row.now body.now × (column + R.Store.COLUMNS * count ≤ length table.old) }
    ensures { (result ≡ pos_of (run (many count (R.Store.reads row.now)) body.now at)) × (table.new ≡ sets table.old column (flat_map (R.Store.columns row.now) (rows_of (run (many count (R.Store.reads row.now)) body.now at)))) }
{
    let mut pos = at;
    let mut to = column;
    for _ in 0..count {
        pos = row.store(body, pos, table, to);
        to += R::COLUMNS;
    }
    pos
}

// A row with its rows of another table, both stored.
pub trait Nest {
    ghost Read: { Type 0 };

    ghost reads: { Self → Prog Read };

    ghost may: { Self → List ℕ → Type 0 };

    const COLUMNS: usize;

    ghost COLUMNS: { ℕ };

    ghost KID_COLUMNS: { ℕ };

    ghost size: { Self → Read → ℕ };

    ghost columns: { Self → ℕ → Read → List ℕ };

    ghost kids: { Self → Read → List ℕ };

    // Stores it as the columns from `to` on, its rows as those from row `first` on; says where it ends, and the row behind its rows.
    fn store(
        &self,
        body: &[u8],
        at: usize,
        outer: &mut [u16],
        to: usize,
        inner: &mut [u16],
        first: usize,
    ) -> (usize, usize)
        requires { Fillable (reads self.now) KID_COLUMNS (size self.now) body.now at first inner.old × may self.now body.now × (to + COLUMNS ≤ length outer.old) }
        ensures { RowNested (reads self.now) (size self.now) (columns self.now) COLUMNS (kids self.now) KID_COLUMNS body.now at outer.old to inner.old first result.0 result.1 outer.new inner.new };
}

// Stores `count` rows as the first of their table, and their rows as the first of the other.
pub fn nest_rows<R: Nest>(
    row: &R,
    body: &[u8],
    at: usize,
    count: usize,
    outer: &mut [u16],
    inner: &mut [u16],
)
    requires { Fillable (many count (R.Nest.reads row.now)) R.Nest.KID_COLUMNS (sum (R.Nest.size row.now)) body.now at 0 inner.old × R.Nest.may row.now body.now × (R.Nest.COLUMNS * count ≤ length outer.old) }
    ensures { Nests (R.Nest.reads row.now) (R.Nest.size row.now) (R.Nest.columns row.now) (R.Nest.kids row.now) body.now at count outer.old inner.old outer.new inner.new }
{
    let mut pos = at;
    let mut to = 0;
    let mut first = 0;
    for _ in 0..count {
        (pos, first) = row.store(body, pos, outer, to, inner, first);
        to += R::COLUMNS;
    }
}

// ---- tallied, once measured

// The reserved bits at 0, and the next position.
#[derive(Clone, Copy, PartialEq, Eq)]
pub struct Zeros {
    pub zeros: u32,
    pub next: usize,
}

// A row whose reserved bits are counted.
pub trait Tally {
    ghost Read: { Type 0 };

    ghost reads: { Self → Prog Read };

    ghost may: { Self → List ℕ → Type 0 };

    ghost zeros: { Self → Read → ℕ };

    ghost most: { ℕ };

    // Of one row.
    fn zeros(&self, body: &[u8], at: usize) -> Zeros
        requires { (at ≤ length body.now) × (is_done (run (reads self.now) body.now at) ≡ true) × may self.now body.now }
        ensures { (done result.zeros result.next ≡ map_out (zeros self.now) (run (reads self.now) body.now at)) × (result.zeros ≤ most) };
}

// Of `count` rows.
pub fn rows_zeros<R: Tally>(row: &R, body: &[u8], at: usize, count: usize) -> Zeros
    requires { (at ≤ length body.now) × (is_done (run (many count (R.Tally.reads row.now)) body.now at) ≡ true) × R.Tally.may row.now body.now × (R.Tally.most * count < 2 ^ 32) }
    ensures { (done result.zeros result.next ≡ map_out (sum (R.Tally.zeros row.now)) (run (many count (R.Tally.reads row.now)) body.now at)) × (result.zeros ≤ R.Tally.most * count) }
{
    let mut pos = at;
    let mut zeros: u32 = 0;
    for _ in 0..count {
        let z = row.zeros(body, pos);
        zeros += z.zeros;
        pos = z.next;
    }
    Zeros { zeros, next: pos }
}
