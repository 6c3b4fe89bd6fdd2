// Reading pairs that were measured: nothing is left to test.
ghost use Rattle.std.specs.Prelude.{ℕ, List, ◌≡◌, true, ◌+◌, ◌*◌, ◌<◌, ◌≤◌, length, get_or};
ghost use mathlib.Core.List.{flat_map};
ghost use Rattle.std.proofs.lemmas.List.Edits.{sets};
ghost use Rattle.wire.specs.Prog.{run, many};
ghost use Rattle.wire.specs.Reads.{is_done, rows_of};
ghost use Rattle.wire.specs.Layout.{flat};
ghost use Rattle.pairs.specs.Layout.{pair};
ghost use Rattle.pairs.specs.Rows.{pair_from};

use super::PAIR_COLUMNS;
use wire::bits::{part, wide};
use wire::list::{Store, store_rows};
use wire::rows::put_row;

// The columns of the pair that stands here.
fn pair_at(body: &[u8], at: usize) -> [u16; PAIR_COLUMNS]
    requires { at < length body.now }
    ensures { result ≡ pair_from (get_or body.now at 0) }
{
    let b = wide(body[at]);
    [part(b, 7, 1), part(b, 0, 7)]
}

// A pair, as a list of them is stored and tallied.
pub struct Pair;

impl Store for Pair {
    ghost Read = { List ℕ };

    ghost reads = { λ _. flat 2 pair };

    ghost may = { λ _ _. Unit {0} };

    ghost COLUMNS = { 2 };

    ghost columns = { λ _ r. r };

    const COLUMNS: usize = PAIR_COLUMNS;

    fn store(&self, body: &[u8], at: usize, table: &mut [u16], to: usize) -> usize {
        put_row(table, to, &pair_at(body, at));
        at + 1
    }
}

// Stores `count` pairs from column `column` of their table on.
pub fn fill_pairs(body: &[u8], at: usize, count: usize, table: &mut [u16], column: usize)
    requires { (at ≤ length body.now) × (is_done (run (many count (flat 2 pair)) body.now at) ≡ true) × (column + 2 * count ≤ length table.old) }
    ensures { table.new ≡ sets table.old column (flat_map (λ r. r) (rows_of (run (many count (flat 2 pair)) body.now at))) }
{
    let _ = store_rows(&Pair, body, at, count, table, column);
}
