// The reserved bits at 0 of pairs that were measured.
ghost use Rattle.std.specs.Prelude.{ℕ, List, ◌≡◌, true, [], ◌∷◌, ◌≤◌, length};
ghost use Rattle.wire.specs.Lists.{sum};
ghost use Rattle.wire.specs.Prog.{run, many};
ghost use Rattle.wire.specs.Reads.{is_done, rows_of};
ghost use Rattle.wire.specs.Layout.{flat, of, tally};
ghost use Rattle.pairs.specs.Layout.{pair};

use super::parsing::Pair;
use wire::bits::{idle_bits, part, wide};
use wire::list::{Tally, Zeros, rows_zeros};

impl Tally for Pair {
    ghost Read = { List ℕ };

    ghost reads = { λ _. flat 2 pair };

    ghost may = { λ _ _. Unit {0} };

    ghost zeros = { λ _ r. tally (pair ∷ []) (of r) };

    ghost most = { 1 };

    fn zeros(&self, body: &[u8], at: usize) -> Zeros {
        Zeros {
            zeros: idle_bits(part(wide(body[at]), 7, 1), 1),
            next: at + 1,
        }
    }
}

pub fn pairs_zeros(body: &[u8], at: usize, count: usize) -> u32
    requires { (at ≤ length body.now) × (is_done (run (many count (flat 2 pair)) body.now at) ≡ true) × (count ≤ 32) }
    ensures { (result ≡ sum (λ r. tally (pair ∷ []) (of r)) (rows_of (run (many count (flat 2 pair)) body.now at))) × (result ≤ count) }
{
    rows_zeros(&Pair, body, at, count).zeros
}
