// The reserved bits at 0 of a list of labels that was measured: before its count, and before the ID of each entry.
ghost use Rattle.std.specs.Prelude.{◌≡◌, true, ◌*◌, ◌<◌, ◌≤◌, length};
ghost use Rattle.wire.specs.Lists.{sum};
ghost use Rattle.wire.specs.Prog.{done, run, many};
ghost use Rattle.wire.specs.Reads.{map_out, is_done};
ghost use Rattle.wire.specs.Layout.{Borne, bearing, borne_tally};
ghost use Rattle.labels.specs.Layout.{label};
ghost use Rattle.labels.specs.Read.{labels};
ghost use Rattle.labels.specs.Contract.{labels_tally};

use super::parsing::{Label, entry_at};
use wire::bits::{idle_bits, part, wide};
use wire::list::{Tally, Zeros, rows_zeros};

impl Tally for Label {
    ghost Read = { Borne };

    ghost reads = { λ l. bearing (label l.w) };

    ghost may = { λ l s. (l.w < 8) × (length s < 65536) };

    ghost zeros = { λ l x. borne_tally (label l.w) x };

    ghost most = { 8 };

    fn zeros(&self, body: &[u8], at: usize) -> Zeros {
        let p = entry_at(body, at, self.w);
        Zeros {
            zeros: idle_bits(p.row.reserved, 8 - self.w),
            next: p.next,
        }
    }
}

// Of a list whose IDs have `w` bits.
pub fn tally_list(body: &[u8], at: usize, w: u32) -> Zeros
    requires { (at ≤ length body.now) × (length body.now < 65536) × (is_done (run (labels w) body.now at) ≡ true) × (w < 8) }
    ensures { (done result.zeros result.next ≡ map_out (labels_tally w) (run (labels w) body.now at)) × (result.zeros ≤ 1024) }
{
    let b = wide(body[at]);
    let count = part(b, 0, w) as usize;
    let t = rows_zeros(&Label { w }, body, at + 1, count);
    let before = idle_bits(part(b, w, 8 - w), 8 - w);
    Zeros {
        zeros: before + t.zeros,
        next: t.next,
    }
}
