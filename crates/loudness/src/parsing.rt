// Reading loudness entries: one pass measures, one takes what was measured and tests nothing.
ghost use Rattle.std.specs.Prelude.{◌≡◌, true, ◌<◌, ◌≤◌, length};
ghost use Rattle.wire.specs.Prog.{done, run};
ghost use Rattle.wire.specs.Reads.{map_out, is_done};
ghost use Rattle.wire.specs.Layout.{Borne, borne_row};
ghost use Rattle.loudness.specs.Layout.{entry, entries};
ghost use Rattle.loudness.specs.Rows.{entry_row};

use super::rows::{ENTRY_COLUMNS, LoudnessInfoEntry, id_types};
use scopes::parsing::{id_bytes, scope_at};
use wire::bits::{part, wide};
use wire::list::{Measure, Store};
use wire::reads::{Short, bytes_end, head};
use wire::rows::{payload_at, put_row};

// An entry, as a list of them is measured, stored and tallied.
pub struct LoudnessEntry;

// ---- measured

// Its type tells whether an ID stands before the length.
impl Measure for LoudnessEntry {
    ghost Read = { Borne };

    ghost reads = { λ _. entries };

    fn end(&self, body: &[u8], at: usize) -> Result<usize, Short> {
        let n = head(body, at, 1)?;
        let ids = id_bytes(&id_types(), part(wide(body[at]), 0, 2));
        let m = head(body, n, ids + 1)?;
        bytes_end(body, m, wide(body[n + ids]) as usize)
    }
}

// ---- taken, once measured

// An entry, and the next position.
#[derive(Clone, Copy, PartialEq, Eq)]
pub struct Placed {
    pub row: LoudnessInfoEntry,
    pub next: usize,
}

pub fn entry_at(body: &[u8], at: usize) -> Placed
    requires { (at ≤ length body.now) × (length body.now < 65536) × (is_done (run entries body.now at) ≡ true) }
    ensures { done (entry_row result.row) result.next ≡ map_out (borne_row entry) (run entries body.now at) }
{
    let types = id_types();
    let typed = scope_at(body, at, &types);
    let size_at = at + 1 + id_bytes(&types, part(wide(body[at]), 0, 2));
    let size = wide(body[size_at]);
    let begins = size_at + 1;
    Placed {
        row: LoudnessInfoEntry {
            reserved_type: typed.reserved_type,
            scope: typed.scope,
            loudness_info: payload_at(begins, size),
        },
        next: begins + (size as usize),
    }
}

impl Store for LoudnessEntry {
    ghost Read = { Borne };

    ghost reads = { λ _. entries };

    ghost may = { λ _ s. length s < 65536 };

    ghost COLUMNS = { 7 };

    ghost columns = { λ _ x. borne_row entry x };

    const COLUMNS: usize = ENTRY_COLUMNS;

    fn store(&self, body: &[u8], at: usize, table: &mut [u16], to: usize) -> usize {
        let p = entry_at(body, at);
        put_row(table, to, &p.row.columns());
        p.next
    }
}
