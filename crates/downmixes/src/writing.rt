// Writing downmix definitions: their bytes as numbers, the check pass, which counts plain rows, and the fill pass.
ghost use Rattle.std.specs.Prelude.{◌*◌, ◌<◌, ◌≤◌, ◌^◌, length};
ghost use Rattle.wire.specs.Act.{rows};
ghost use Rattle.wire.specs.Pen.{Checked, Ready, Filled, At};
ghost use Rattle.wire.specs.Spell.{Spelt, PlainRows};
ghost use Rattle.downmixes.specs.Write.{downmix_fields, row_acts};

use super::rows::{DOWNMIX_COLUMNS, DownmixDefinition};
use wire::pen::Pen;
use wire::spell::{check_all, fill_all, fits_all, two};
use wire::written::Rows;

fn downmix_bytes(d: DownmixDefinition) -> [u32; 2]
    ensures { Spelt (downmix_fields d) result }
{
    [
        two(d.reserved, 1, d.downmix_id, 7),
        two(d.downmix_type, 2, d.cicp_speaker_layout_idx, 6),
    ]
}

// The rows of table 12 that are written.
#[derive(Clone, Copy)]
pub struct Downmixes<'a> {
    pub downmixes: &'a [u16],
}

impl Rows for Downmixes<'_> {
    ghost columns = { 4 };

    ghost table = { λ t. t.downmixes.now };

    ghost acts = { λ t i. row_acts t.downmixes.now i };

    ghost most = { 2 };

    ghost may = { λ _. Unit {0} };

    fn columns(&self) -> usize {
        DOWNMIX_COLUMNS
    }

    fn plain(&self, i: usize, b: usize) -> usize {
        let d = DownmixDefinition::of_columns(self.downmixes, b);
        if fits_all(&downmix_bytes(d)) { 2 } else { 0 }
    }

    fn check(&self, n: usize, i: usize) -> Pen {
        let d = DownmixDefinition::of_columns(self.downmixes, i * DOWNMIX_COLUMNS);
        check_all(Ok(n), true, &downmix_bytes(d))
    }

    fn fill(&self, i: usize, b: usize, out: &mut [u8], n: usize) -> usize {
        let d = DownmixDefinition::of_columns(self.downmixes, b);
        fill_all(out, n, true, &downmix_bytes(d))
    }
}
