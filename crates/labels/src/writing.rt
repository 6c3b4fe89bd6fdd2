// Writing a list of labels in two passes, each in the order of the Rust's `write_entries`: the check pass, which counts plain rows, and the fill pass. IDs and counts have `w` bits.
ghost use Rattle.std.specs.Prelude.{◌≡◌, true, ◌+◌, ◌*◌, ◌-◌, ◌<◌, ◌^◌, length};
ghost use Rattle.wire.specs.Pen.{reach, Checked, Quick, Ready, Filled, At};
ghost use Rattle.wire.specs.Spell.{Spells, PlainRows};
ghost use Rattle.labels.specs.Write.{id_byte, entry_acts, row_acts, in_table, count_byte, entries_acts, list_acts};

use super::rows::{Descriptions, ENTRY_COLUMNS, TextLabelEntry};
use wire::bits::fits;
use wire::pen;
use wire::pen::{Fault, Pen};
use wire::rows::in_store;
use wire::spell::{check_all, fill_all, two};
use wire::written::{Rows, check_rows, fill_rows};

// ---- the bytes

fn id_byte(e: TextLabelEntry, w: u32) -> u32
    requires { w < 8 }
    ensures { Spells (id_byte w e) result }
{
    two(e.reserved, 8 - w, e.id, w)
}

fn count_byte(d: Descriptions, w: u32) -> u32
    requires { w < 8 }
    ensures { Spells (count_byte w d) result }
{
    two(d.reserved, 8 - w, d.entries.count, w)
}

// ---- the check pass

// The range, then the ID, the length and the label's bytes.
fn check_entry(n: usize, e: TextLabelEntry, w: u32, store: &[u8]) -> Pen
    requires { (n < 2 ^ 30) × (w < 8) }
    ensures { Checked (entry_acts w store.now e) 257 (At n) result }
{
    let label = e.data;
    let p0 = pen::demand(Ok(n), Fault::Range, in_store(label, store));
    let p1 = check_all(p0, true, &[id_byte(e, w)]);
    let p2 = pen::byte(p1, fits(label.length, 8));
    pen::run(p2, label.length as usize)
}

// Its bytes, or 0 if it has a fault: in almost every row nothing is wrong, and this is seen at once.
fn plain_bytes(e: TextLabelEntry, w: u32, store: &[u8]) -> usize
    requires { w < 8 }
    ensures { Quick (entry_acts w store.now e) 257 result }
{
    let count = e.data.length;
    if in_store(e.data, store) & ((id_byte(e, w) < 65536) & fits(count, 8)) {
        2 + (count as usize)
    } else {
        0
    }
}

// ---- the fill pass

// An entry: its ID, its length, and the label's bytes from the store.
fn fill_entry(e: TextLabelEntry, w: u32, store: &[u8], out: &mut [u8], n: usize) -> usize
    requires { Ready (entry_acts w store.now e) n out.old × (w < 8) }
    ensures { Filled (entry_acts w store.now e) n out.old result out.new }
{
    let from = e.data.offset;
    let count = e.data.length;
    let n1 = fill_all(out, n, true, &[id_byte(e, w)]);
    let n2 = pen::put(out, n1, count);
    pen::copy(out, n2, store, from as usize, count as usize)
}

// ---- the rows of a list

// The rows of table 7 that are written, whose IDs have `w` bits; their bytes stand in the store.
#[derive(Clone, Copy)]
pub struct Labels<'a> {
    pub entries: &'a [u16],
    pub store: &'a [u8],
    pub w: u32,
}

impl Rows for Labels<'_> {
    ghost columns = { 4 };

    ghost table = { λ l. l.entries.now };

    ghost acts = { λ l i. row_acts l.w l.entries.now l.store.now i };

    ghost most = { 257 };

    ghost may = { λ l. l.w < 8 };

    fn columns(&self) -> usize {
        ENTRY_COLUMNS
    }

    fn plain(&self, i: usize, b: usize) -> usize {
        let e = TextLabelEntry::of_columns(self.entries, b);
        plain_bytes(e, self.w, self.store)
    }

    fn check(&self, n: usize, i: usize) -> Pen {
        let e = TextLabelEntry::of_columns(self.entries, i * ENTRY_COLUMNS);
        check_entry(n, e, self.w, self.store)
    }

    fn fill(&self, i: usize, b: usize, out: &mut [u8], n: usize) -> usize {
        let e = TextLabelEntry::of_columns(self.entries, b);
        fill_entry(e, self.w, self.store, out, n)
    }
}

// ---- a list

// A list: its count, and its entries if the count fits.
pub fn check_list(p: Pen, d: Descriptions, w: u32, entries: &[u16], store: &[u8]) -> Pen
    requires { (in_table d.entries entries.now ≡ true) × (reach p < 2 ^ 28) × (w < 8) }
    ensures { Checked (list_acts w entries.now store.now d) (1 + 257 * (2 ^ w - 1)) p result }
{
    let n = check_all(p, true, &[count_byte(d, w)])?;
    let r = d.entries;
    check_rows(
        &Labels { entries, store, w },
        n,
        r.first as usize,
        r.count as usize,
    )
}

// A list: its count, and its entries.
pub fn fill_list(
    d: Descriptions,
    w: u32,
    entries: &[u16],
    store: &[u8],
    out: &mut [u8],
    n: usize,
) -> usize
    requires { (in_table d.entries entries.now ≡ true) × Ready (list_acts w entries.now store.now d) n out.old × (w < 8) }
    ensures { Filled (list_acts w entries.now store.now d) n out.old result out.new }
{
    let n1 = fill_all(out, n, true, &[count_byte(d, w)]);
    let r = d.entries;
    fill_rows(
        &Labels { entries, store, w },
        r.first as usize,
        r.count as usize,
        out,
        n1,
    )
}
