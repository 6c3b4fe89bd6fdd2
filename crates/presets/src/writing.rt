// Writing presets with their conditions: the check pass with a quick test of a plain row, and the fill pass.
ghost use Rattle.std.specs.Prelude.{◌+◌, ◌≡◌, ◌&&◌, leb, ◌-◌, ◌*◌, ◌<◌, ◌^◌};
ghost use Rattle.wire.specs.Layout.{family_acts};
ghost use Rattle.wire.specs.Pen.{Checked, Quick, Ready, Filled};
ghost use Rattle.wire.specs.Spell.{Spelt, fit_all};
ghost use Rattle.wire.specs.Pen.{At};
ghost use Rattle.conditions.specs.Layout.{condition};
ghost use Rattle.presets.specs.Layout.{preset};
ghost use Rattle.presets.specs.Write.{head_fields, preset_acts};

use super::rows::{CONDITION_COLUMNS, GroupPreset, PRESET_COLUMNS};
use conditions::writing::Conditions;
use wire::bits::{fits, four_fit, less_one};
use wire::pen;
use wire::pen::{Fault, Pen};
use wire::rows::in_table;
use wire::spell::{check_all, fill_all, two};
use wire::written::{Rows, check_rows, fill_rows, plain_run};

// ---- the bytes

fn head_bytes(p: GroupPreset, stored: u16) -> [u32; 3]
    requires { stored ≡ p.conditions.count - 1 }
    ensures { Spelt (head_fields p) result }
{
    [
        two(p.reserved_id, 3, p.preset_id.0, 5),
        two(p.reserved_kind, 3, p.preset_kind, 5),
        two(p.reserved_conditions, 4, stored, 4),
    ]
}

// ---- the check pass

// Its range, then an empty list, at the start of the row; then each byte and each condition at its place.
fn check_preset(n: usize, p: GroupPreset, conditions: &[u16]) -> Pen
    requires { n + 99 < 2 ^ 30 }
    ensures { Checked (preset_acts p conditions.now) 99 (At n) result }
{
    let r = p.conditions;
    let inside = in_table(r, conditions, CONDITION_COLUMNS);
    let p0 = pen::demand(Ok(n), Fault::Range, inside);
    let p1 = pen::demand(p0, Fault::Empty, 1 <= r.count);
    let m = check_all(p1, true, &head_bytes(p, less_one(r.count)))?;
    check_rows(
        &Conditions { conditions },
        m,
        r.first as usize,
        r.count as usize,
    )
}

// Whether it has conditions and its three bytes fit: four columns stand side by side, and a count that is stored minus one fits four bits where it is at most 16.
fn front_fits(p: GroupPreset) -> bool
    ensures { result ≡ leb 1 p.conditions.count && fit_all (head_fields p) }
{
    if four_fit(
        p.reserved_id,
        3,
        p.preset_id.0,
        5,
        p.reserved_kind,
        3,
        p.preset_kind,
        5,
    ) {
        let count = p.conditions.count;
        let counted = (1 <= count) & (count <= 16);
        counted & fits(p.reserved_conditions, 4)
    } else {
        false
    }
}

// Its bytes with those of its conditions, or 0 if there is a fault.
fn plain_bytes(p: GroupPreset, conditions: &[u16]) -> usize
    ensures { Quick (preset_acts p conditions.now) 99 result }
{
    let r = p.conditions;
    let inside = in_table(r, conditions, CONDITION_COLUMNS);
    if !inside {
        return 0;
    }
    if !front_fits(p) {
        return 0;
    }
    let k = plain_run(
        &Conditions { conditions },
        r.first as usize,
        r.count as usize,
    );
    match k {
        Some(bytes) => 3 + (bytes as usize),
        None => 0,
    }
}

// ---- the fill pass

fn fill_preset(p: GroupPreset, conditions: &[u16], out: &mut [u8], n: usize) -> usize
    requires { Ready (preset_acts p conditions.now) n out.old }
    ensures { Filled (preset_acts p conditions.now) n out.old result out.new }
{
    let n1 = fill_all(out, n, true, &head_bytes(p, p.conditions.count - 1));
    let r = p.conditions;
    fill_rows(
        &Conditions { conditions },
        r.first as usize,
        r.count as usize,
        out,
        n1,
    )
}

// ---- the rows of table 4

// The rows that are written, with their conditions.
#[derive(Clone, Copy)]
pub struct Presets<'a> {
    pub presets: &'a [u16],
    pub conditions: &'a [u16],
}

impl Rows for Presets<'_> {
    ghost columns = { 7 };

    ghost table = { λ t. t.presets.now };

    ghost acts = { λ t i. family_acts preset 13 condition t.presets.now t.conditions.now i };

    ghost most = { 99 };

    ghost may = { λ _. Unit {0} };

    fn columns(&self) -> usize {
        PRESET_COLUMNS
    }

    fn plain(&self, i: usize, b: usize) -> usize {
        let p = GroupPreset::of_columns(self.presets, b);
        plain_bytes(p, self.conditions)
    }

    fn check(&self, n: usize, i: usize) -> Pen {
        let p = GroupPreset::of_columns(self.presets, i * PRESET_COLUMNS);
        check_preset(n, p, self.conditions)
    }

    fn fill(&self, i: usize, b: usize, out: &mut [u8], n: usize) -> usize {
        let p = GroupPreset::of_columns(self.presets, b);
        fill_preset(p, self.conditions, out, n)
    }
}
