// The reserved bits at 0 of a text label body that was measured: before the count of the languages, and those of each language's lists.
ghost use Rattle.std.specs.Prelude.{◌≡◌, true, ◌*◌, ◌<◌, ◌≤◌, length};
ghost use Rattle.wire.specs.Lists.{sum};
ghost use Rattle.wire.specs.Prog.{done, run, many};
ghost use Rattle.wire.specs.Reads.{map_out, is_done};
ghost use Rattle.frame.specs.Numbers.{accepted};
ghost use Rattle.frame.specs.Entry.{Measures, Tallies};
ghost use Rattle.text_label.specs.Rows.{Language};
ghost use Rattle.text_label.specs.Read.{language};
ghost use Rattle.text_label.specs.Kind.{language_rows, kind};
ghost use Rattle.text_label.specs.Contract.{sized};

use super::Sizes;
use super::parsing::Language;
use labels::tallying::tally_list;
use wire::bits::{idle_bits, part, wide};
use wire::list::{Tally, Zeros, rows_zeros};

// Those of its three lists.
impl Tally for Language {
    ghost Read = { Language };

    ghost reads = { λ _. language };

    ghost may = { λ _ s. length s < 65536 };

    ghost zeros = { λ _ l. language_rows.zeros l };

    ghost most = { 3072 };

    fn zeros(&self, body: &[u8], at: usize) -> Zeros {
        let g = tally_list(body, at + 3, 7);
        let s = tally_list(body, g.next, 5);
        let p = tally_list(body, s.next, 5);
        Zeros {
            zeros: g.zeros + (s.zeros + p.zeros),
            next: p.next,
        }
    }
}

// Of a body.
pub fn zero_bits(body: &[u8], s: Sizes) -> usize
    requires { Measures kind body.now (accepted (sized s.languages s.entries s.k)) }
    ensures { Tallies kind body.now (accepted result) }
{
    let count = s.languages;
    let before = idle_bits(part(wide(body[1]), 4, 4), 4);
    let t = rows_zeros(&Language, body, 2, count as usize);
    (before + t.zeros) as usize
}
