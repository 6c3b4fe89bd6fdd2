// Reading a list of labels: the reads of the Rust's `parse_entries`, after the byte with the count. One pass measures and touches nothing, one takes what was measured and tests nothing.
ghost use Rattle.std.specs.Prelude.{◌≡◌, true, ◌+◌, ◌*◌, ◌<◌, ◌≤◌, length};
ghost use mathlib.Core.List.{flat_map};
ghost use Rattle.std.proofs.lemmas.List.Edits.{sets};
ghost use Rattle.wire.specs.Prog.{done, run, many};
ghost use Rattle.wire.specs.Reads.{map_out, is_done, pos_of, rows_of, Summed};
ghost use Rattle.wire.specs.Layout.{Borne, bearing, borne_row};
ghost use Rattle.wire.specs.Nest.{Fillable, Nested};
ghost use Rattle.labels.specs.Layout.{label};
ghost use Rattle.labels.specs.Read.{labels};
ghost use Rattle.labels.specs.Rows.{entry_row, list_from};

use super::rows::{Descriptions, ENTRY_COLUMNS, TextLabelEntry};
use wire::bits::{part, wide};
use wire::list::{Measure, Store, rows_end, store_rows};
use wire::reads::{Short, byte_at, bytes_end, head};
use wire::rows::{Range, payload_at, put_row};

// An entry whose ID has `w` bits, as a list of them is measured, stored and tallied.
#[derive(Clone, Copy, PartialEq, Eq)]
pub struct Label {
    pub w: u32,
}

// ---- measured

impl Measure for Label {
    ghost Read = { Borne };

    ghost reads = { λ l. bearing (label l.w) };

    fn end(&self, body: &[u8], at: usize) -> Result<usize, Short> {
        let n = head(body, at, 2)?;
        bytes_end(body, n, wide(body[at + 1]) as usize)
    }
}

// The entries of a list whose IDs have `w` bits, and where it ends.
pub fn list_rows(body: &[u8], at: usize, w: u32) -> Result<(usize, usize), Short>
    requires { (at ≤ length body.now) × (w < 8) }
    ensures { Summed (labels w) (λ d. length d.entries) 127 body.now at result }
{
    let (b, n1) = byte_at(body, at)?;
    let count = part(b, 0, w) as usize;
    let next = rows_end(&Label { w }, body, n1, count)?;
    Ok((count, next))
}

// ---- taken, once measured

// An entry, and the next position.
#[derive(Clone, Copy, PartialEq, Eq)]
pub struct Placed {
    pub row: TextLabelEntry,
    pub next: usize,
}

pub fn entry_at(body: &[u8], at: usize, w: u32) -> Placed
    requires { (at ≤ length body.now) × (length body.now < 65536) × (is_done (run (bearing (label w)) body.now at) ≡ true) × (w < 8) }
    ensures { done (entry_row result.row) result.next ≡ map_out (borne_row (label w)) (run (bearing (label w)) body.now at) }
{
    let b = wide(body[at]);
    let size = wide(body[at + 1]);
    let begins = at + 2;
    Placed {
        row: TextLabelEntry {
            reserved: part(b, w, 8 - w),
            id: part(b, 0, w),
            data: payload_at(begins, size),
        },
        next: begins + (size as usize),
    }
}

impl Store for Label {
    ghost Read = { Borne };

    ghost reads = { λ l. bearing (label l.w) };

    ghost may = { λ l s. (l.w < 8) × (length s < 65536) };

    ghost COLUMNS = { 4 };

    ghost columns = { λ l x. borne_row (label l.w) x };

    const COLUMNS: usize = ENTRY_COLUMNS;

    fn store(&self, body: &[u8], at: usize, table: &mut [u16], to: usize) -> usize {
        let p = entry_at(body, at, self.w);
        put_row(table, to, &p.row.columns());
        p.next
    }
}

// A list, and the next position.
#[derive(Clone, Copy, PartialEq, Eq)]
pub struct PlacedList {
    pub list: Descriptions,
    pub next: usize,
}

// Stores the entries of a list from row `first` on.
pub fn fill_list(body: &[u8], at: usize, w: u32, entries: &mut [u16], first: usize) -> PlacedList
    requires { Fillable (labels w) 4 (λ d. length d.entries) body.now at first entries.old × (w < 8) }
    ensures { Nested (labels w) 4 list_from (λ d. flat_map (borne_row (label w)) d.entries) body.now at first entries.old result.list result.next entries.new }
{
    let b = wide(body[at]);
    let count = part(b, 0, w);
    let next = store_rows(
        &Label { w },
        body,
        at + 1,
        count as usize,
        entries,
        first * ENTRY_COLUMNS,
    );
    PlacedList {
        list: Descriptions {
            reserved: part(b, w, 8 - w),
            entries: Range {
                first: first as u16,
                count,
            },
        },
        next,
    }
}

// The row behind those of a list.
pub fn row_after(r: Range) -> usize
    ensures { result ≡ r.first + r.count }
{
    (r.first as usize) + (r.count as usize)
}
