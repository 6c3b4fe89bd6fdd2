// Writing loudness entries: the check pass with a quick test of a plain row, and the fill pass. How far a pen may be is asked as in `wire::pen`.
ghost use Rattle.std.specs.Prelude.{◌<◌, ◌^◌};
ghost use Rattle.wire.specs.Pen.{Checked, Quick, Ready, Filled, At};
ghost use Rattle.loudness.specs.Write.{entry_acts, row_acts};

use super::rows::{ENTRY_COLUMNS, LoudnessInfoEntry, id_types};
use scopes::writing::{check_scope, fill_scope, plain_scope};
use wire::bits::fits;
use wire::pen;
use wire::pen::{Fault, Pen};
use wire::rows::in_store;
use wire::written::Rows;

// ---- the check pass

// The range at the start of the row, then the scope, the length and the bytes.
fn check_entry(n: usize, e: LoudnessInfoEntry, store: &[u8]) -> Pen
    requires { n < 2 ^ 30 }
    ensures { Checked (entry_acts store.now e) 258 (At n) result }
{
    let info = e.loudness_info;
    let p0 = pen::demand(Ok(n), Fault::Range, in_store(info, store));
    let p1 = check_scope(p0, e.reserved_type, e.scope, &id_types());
    let p2 = pen::byte(p1, fits(info.length, 8));
    pen::run(p2, info.length as usize)
}

// Its bytes, or 0 if it has a fault: in almost every row nothing is wrong, and this is seen at once.
fn plain_bytes(e: LoudnessInfoEntry, store: &[u8]) -> usize
    ensures { Quick (entry_acts store.now e) 258 result }
{
    let info = e.loudness_info;
    let k = plain_scope(e.reserved_type, e.scope, &id_types());
    if in_store(info, store) & ((0 < k) & fits(info.length, 8)) {
        k + (1 + (info.length as usize))
    } else {
        0
    }
}

// ---- the fill pass

fn fill_entry(e: LoudnessInfoEntry, store: &[u8], out: &mut [u8], n: usize) -> usize
    requires { Ready (entry_acts store.now e) n out.old }
    ensures { Filled (entry_acts store.now e) n out.old result out.new }
{
    let info = e.loudness_info;
    let n1 = fill_scope(e.reserved_type, e.scope, out, n);
    let n2 = pen::put(out, n1, info.length);
    pen::copy(out, n2, store, info.offset as usize, info.length as usize)
}

// ---- the rows of a table

// The rows of table 11 that are written; their bytes stand in the store.
#[derive(Clone, Copy)]
pub struct LoudnessEntries<'a> {
    pub entries: &'a [u16],
    pub store: &'a [u8],
}

impl Rows for LoudnessEntries<'_> {
    ghost columns = { 7 };

    ghost table = { λ t. t.entries.now };

    ghost acts = { λ t i. row_acts t.entries.now t.store.now i };

    ghost most = { 258 };

    ghost may = { λ _. Unit {0} };

    fn columns(&self) -> usize {
        ENTRY_COLUMNS
    }

    fn plain(&self, i: usize, b: usize) -> usize {
        let e = LoudnessInfoEntry::of_columns(self.entries, b);
        plain_bytes(e, self.store)
    }

    fn check(&self, n: usize, i: usize) -> Pen {
        let e = LoudnessInfoEntry::of_columns(self.entries, i * ENTRY_COLUMNS);
        check_entry(n, e, self.store)
    }

    fn fill(&self, i: usize, b: usize, out: &mut [u8], n: usize) -> usize {
        let e = LoudnessInfoEntry::of_columns(self.entries, b);
        fill_entry(e, self.store, out, n)
    }
}
