// The reserved bits at 0 of loudness entries that were measured: those of their scopes.
ghost use Rattle.std.specs.Prelude.{◌<◌, length};
ghost use Rattle.wire.specs.Layout.{Borne, borne_tally};
ghost use Rattle.loudness.specs.Layout.{entry, entries};

use super::parsing::{LoudnessEntry, entry_at};
use scopes::tallying::scope_zeros;
use wire::list::{Tally, Zeros};

impl Tally for LoudnessEntry {
    ghost Read = { Borne };

    ghost reads = { λ _. entries };

    ghost may = { λ _ s. length s < 65536 };

    ghost zeros = { λ _ x. borne_tally entry x };

    ghost most = { 9 };

    fn zeros(&self, body: &[u8], at: usize) -> Zeros {
        let p = entry_at(body, at);
        Zeros {
            zeros: scope_zeros(p.row.reserved_type, p.row.scope),
            next: p.next,
        }
    }
}
