// Reading downmix definitions: one comparison measures them all, and what was measured is taken without a test. A body and a position stay two arguments, as in `wire::reads`.
ghost use Rattle.std.specs.Prelude.{ℕ, ◌≡◌, true, [], ◌∷◌, ◌+◌, ◌*◌, ◌<◌, ◌≤◌, List, length, get_or};
ghost use Rattle.wire.specs.Prog.{run, many};
ghost use Rattle.wire.specs.Reads.{end_of, ends_out};
ghost use Rattle.wire.specs.Layout.{flat, of, tally};
ghost use Rattle.downmixes.specs.Layout.{downmix};
ghost use Rattle.downmixes.specs.Rows.{downmix_from};

use super::rows::{DOWNMIX_COLUMNS, DownmixDefinition};
use wire::bits::{idle_bits, part, wide};
use wire::list::{Store, Tally, Zeros};
use wire::reads::{Short, head};
use wire::rows::put_row;

// Where `count` downmix definitions end: each is two reads of one byte.
pub fn measure_downmixes(body: &[u8], at: usize, count: usize) -> Result<usize, Short>
    requires { (at ≤ length body.now) × (count < 32) }
    ensures { ends_out result ≡ end_of (run (many count (flat 4 downmix)) body.now at) }
{
    head(body, at, 2 * count)
}

// ---- filling: nothing is left to test

fn downmix_at(body: &[u8], at: usize) -> DownmixDefinition
    requires { at + 2 ≤ length body.now }
    ensures { result ≡ downmix_from (get_or body.now at 0) (get_or body.now (at + 1) 0) }
{
    let id = wide(body[at]);
    let kind = wide(body[at + 1]);
    DownmixDefinition {
        reserved: part(id, 7, 1),
        downmix_id: part(id, 0, 7),
        downmix_type: part(kind, 6, 2),
        cicp_speaker_layout_idx: part(kind, 0, 6),
    }
}

// A row of table 12, as a list of them is stored and tallied.
pub struct Downmix;

impl Store for Downmix {
    ghost Read = { List ℕ };

    ghost reads = { λ _. flat 4 downmix };

    ghost may = { λ _ _. Unit {0} };

    ghost COLUMNS = { 4 };

    ghost columns = { λ _ r. r };

    const COLUMNS: usize = DOWNMIX_COLUMNS;

    fn store(&self, body: &[u8], at: usize, table: &mut [u16], to: usize) -> usize {
        put_row(table, to, &downmix_at(body, at).columns());
        at + 2
    }
}

impl Tally for Downmix {
    ghost Read = { List ℕ };

    ghost reads = { λ _. flat 4 downmix };

    ghost may = { λ _ _. Unit {0} };

    ghost zeros = { λ _ r. tally (downmix ∷ []) (of r) };

    ghost most = { 1 };

    fn zeros(&self, body: &[u8], at: usize) -> Zeros {
        Zeros {
            zeros: idle_bits(part(wide(body[at]), 7, 1), 1),
            next: at + 2,
        }
    }
}
