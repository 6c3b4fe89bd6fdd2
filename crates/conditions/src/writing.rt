// Writing conditions: their bytes as numbers, the check pass with a quick test of a plain row, and the fill pass. A table and the first column of a row stay two arguments, as in `wire::rows`. How far a pen may be is asked as in `wire::pen`.
ghost use Rattle.std.specs.Prelude.{◌≡◌, true, [], ◌∷◌, map, ◌+◌, ◌-◌, ◌*◌, ◌<◌, ◌≤◌, ◌^◌, length};
ghost use Rattle.wire.specs.Bits.{field, fit, some_if};
ghost use Rattle.wire.specs.Act.{byte, when, pick};
ghost use Rattle.wire.specs.Layout.{field_of, flat_acts};
ghost use Rattle.wire.specs.Pen.{reach, Checked, Quick, Ready, Filled};
ghost use Rattle.wire.specs.Spell.{Spells, Spelt, fields_of, fit_all};
ghost use Rattle.wire.specs.Pen.{At};
ghost use Rattle.conditions.specs.Layout.{condition};
ghost use Rattle.conditions.specs.Rows.{flag_cells, gain_cells, position_cells};
ghost use Rattle.conditions.specs.Write.{detail_cols, position_fields, flags_of, detail_acts, detail_long, condition_acts, cols_at, row_acts};

use super::rows::{CONDITION_COLUMNS, PresetCondition, PresetConditionDetail, PresetPosition};
use wire::bits::{fits, four_fit, is_flag, last_of_four, two_fit};
use wire::pen;
use wire::pen::{Fault, Pen};
use wire::spell::{Joined, check_all, fill_all, one, two};
use wire::written::Rows;

// ---- the bytes

// The flags of a detail, each a column of its own.
fn flags_byte(reserved: u16, no_gain: u16, gain: u16, no_position: u16, position: u16) -> u32
    ensures { Spells (field 4 reserved ∷ field 1 no_gain ∷ field 1 gain ∷ field 1 no_position ∷ field 1 position ∷ []) result }
{
    let a = Joined::none().field(reserved, 4);
    let b = a.field(no_gain, 1);
    b.field(gain, 1)
        .field(no_position, 1)
        .field(position, 1)
        .spelt()
}

// Those of a detail that was loaded.
fn flags_of(d: PresetConditionDetail) -> u32
    ensures { Spells (map (field_of (detail_cols d)) flag_cells) result }
{
    flags_byte(
        d.reserved,
        d.disable_gain_interactivity,
        d.gain.present,
        d.disable_position_interactivity,
        d.position.present,
    )
}

fn position_bytes(p: PresetPosition) -> [u32; 3]
    ensures { Spelt (position_fields p) result }
{
    [
        one(p.az_offset),
        two(p.reserved_el, 2, p.el_offset, 6),
        two(p.reserved_dist, 4, p.dist_factor, 4),
    ]
}

// ---- the check pass

// Of a detail that is not there only its own flag counts.
fn flags_hold(d: PresetConditionDetail) -> bool
    ensures { result ≡ flags_of (detail_cols d) }
{
    if d.present == 1 {
        is_flag(d.disable_gain_interactivity)
            & (is_flag(d.gain.present)
                & (is_flag(d.disable_position_interactivity) & is_flag(d.position.present)))
    } else {
        is_flag(d.present)
    }
}

// Each byte of a detail that is there.
fn check_detail(p: Pen, d: PresetConditionDetail) -> Pen
    requires { reach p < 2 ^ 31 }
    ensures { Checked (detail_acts (detail_cols d)) 5 p result }
{
    let p1 = check_all(p, true, &[flags_of(d)]);
    let p2 = check_all(p1, d.gain.present == 1, &[one(d.gain.gain)]);
    check_all(p2, d.position.present == 1, &position_bytes(d.position))
}

// Flags at the start of the row, then each byte at its place.
fn check_condition(n: usize, c: PresetCondition) -> Pen
    requires { n < 2 ^ 30 }
    ensures { Checked (condition_acts c) 6 (At n) result }
{
    let d = c.detail;
    let p0 = pen::demand(Ok(n), Fault::Field, flags_hold(d));
    let p1 = check_all(p0, true, &[two(c.group_id.0, 7, d.present, 1)]);
    if d.present == 1 {
        check_detail(p1, d)
    } else {
        p1
    }
}

// The flag of the gain, if the flags of a detail fit their byte, and its reserved bits. Four of the columns stand side by side; in the byte the third and the fourth change places.
fn gain_flag(reserved: u16, no_gain: u16, gain: u16, no_position: u16, position: u16) -> Option<u16>
    ensures { result ≡ some_if (fit (field 4 reserved ∷ field 1 no_gain ∷ field 1 gain ∷ field 1 no_position ∷ field 1 position ∷ [])) gain }
{
    let last = last_of_four(reserved, 4, no_gain, 1, no_position, 1, gain, 1)?;
    if fits(position, 1) { Some(last) } else { None }
}

fn position_fits(p: PresetPosition) -> bool
    ensures { result ≡ fit_all (position_fields p) }
{
    if four_fit(
        p.az_offset,
        8,
        p.reserved_el,
        2,
        p.el_offset,
        6,
        p.reserved_dist,
        4,
    ) {
        fits(p.dist_factor, 4)
    } else {
        false
    }
}

// Whether the gain of the row whose first column is `b` fits, if it is there. A part's columns are loaded only behind its flag, here and in the fill pass.
fn plain_gain(conditions: &[u16], b: usize, there: bool) -> bool
    requires { b + 13 ≤ length conditions.now }
    ensures { result ≡ pick there (fit_all (fields_of (cols_at conditions.now b) gain_cells)) true }
{
    if there {
        let c = PresetCondition::of_columns(conditions, b);
        fits(c.detail.gain.gain, 8)
    } else {
        true
    }
}

// Whether its position fits, if it is there.
fn plain_position(conditions: &[u16], b: usize, there: bool) -> bool
    requires { b + 13 ≤ length conditions.now }
    ensures { result ≡ pick there (fit_all (fields_of (cols_at conditions.now b) position_cells)) true }
{
    if there {
        let c = PresetCondition::of_columns(conditions, b);
        position_fits(c.detail.position)
    } else {
        true
    }
}

// How many bytes a condition with a detail makes, by the detail's flags.
fn detail_bytes(gain: u16, position: u16) -> usize
    ensures { result ≡ 2 + (gain + position * 3) }
{
    2 + ((gain as usize) + (position as usize) * 3)
}

// The bytes of a condition whose detail is there, or 0 if a field of it does not fit.
fn plain_detail(conditions: &[u16], b: usize) -> usize
    requires { b + 13 ≤ length conditions.now }
    ensures { result ≡ detail_long (cols_at conditions.now b) }
{
    let position = conditions[b + 7];
    let flag = gain_flag(
        conditions[b + 2],
        conditions[b + 3],
        conditions[b + 5],
        conditions[b + 4],
        position,
    );
    let Some(gain) = flag else {
        return 0;
    };
    if plain_gain(conditions, b, gain == 1) {
        if plain_position(conditions, b, position == 1) {
            detail_bytes(gain, position)
        } else {
            0
        }
    } else {
        0
    }
}

// Its bytes, or 0 if it has a fault: in almost every row nothing is wrong, and this is seen at once. A flag is a field of one bit, so the bytes tell.
fn plain_bytes(conditions: &[u16], b: usize) -> usize
    requires { b + 13 ≤ length conditions.now }
    ensures { Quick (flat_acts condition (cols_at conditions.now b)) 6 result }
{
    let c = PresetCondition::of_columns(conditions, b);
    if !two_fit(c.group_id.0, 7, c.detail.present, 1) {
        return 0;
    }
    if c.detail.present == 1 {
        plain_detail(conditions, b)
    } else {
        1
    }
}

// ---- the fill pass

// The gain of the row whose first column is `b`, if it is there.
fn fill_gain(conditions: &[u16], b: usize, there: bool, out: &mut [u8], n: usize) -> usize
    requires { (b + 13 ≤ length conditions.now) × Ready (when there (map byte (fields_of (cols_at conditions.now b) gain_cells))) n out.old }
    ensures { Filled (when there (map byte (fields_of (cols_at conditions.now b) gain_cells))) n out.old result out.new }
{
    if there {
        let c = PresetCondition::of_columns(conditions, b);
        fill_all(out, n, true, &[one(c.detail.gain.gain)])
    } else {
        n
    }
}

// Its position, if it is there.
fn fill_position(conditions: &[u16], b: usize, there: bool, out: &mut [u8], n: usize) -> usize
    requires { (b + 13 ≤ length conditions.now) × Ready (when there (map byte (fields_of (cols_at conditions.now b) position_cells))) n out.old }
    ensures { Filled (when there (map byte (fields_of (cols_at conditions.now b) position_cells))) n out.old result out.new }
{
    if there {
        let c = PresetCondition::of_columns(conditions, b);
        fill_all(out, n, true, &position_bytes(c.detail.position))
    } else {
        n
    }
}

// Its detail, which is there.
fn fill_detail(conditions: &[u16], b: usize, out: &mut [u8], n: usize) -> usize
    requires { (b + 13 ≤ length conditions.now) × Ready (detail_acts (cols_at conditions.now b)) n out.old }
    ensures { Filled (detail_acts (cols_at conditions.now b)) n out.old result out.new }
{
    let c = PresetCondition::of_columns(conditions, b);
    let d = c.detail;
    let n1 = fill_all(out, n, true, &[flags_of(d)]);
    let n2 = fill_gain(conditions, b, d.gain.present == 1, out, n1);
    fill_position(conditions, b, d.position.present == 1, out, n2)
}

// The row.
fn fill_condition(conditions: &[u16], b: usize, out: &mut [u8], n: usize) -> usize
    requires { (b + 13 ≤ length conditions.now) × Ready (flat_acts condition (cols_at conditions.now b)) n out.old }
    ensures { Filled (flat_acts condition (cols_at conditions.now b)) n out.old result out.new }
{
    let c = PresetCondition::of_columns(conditions, b);
    let there = c.detail.present;
    let n1 = fill_all(out, n, true, &[two(c.group_id.0, 7, there, 1)]);
    if there == 1 {
        fill_detail(conditions, b, out, n1)
    } else {
        n1
    }
}

// ---- the rows of table 5

// The rows that are written.
#[derive(Clone, Copy)]
pub struct Conditions<'a> {
    pub conditions: &'a [u16],
}

impl Rows for Conditions<'_> {
    ghost columns = { 13 };

    ghost table = { λ t. t.conditions.now };

    ghost acts = { λ t i. row_acts t.conditions.now i };

    ghost most = { 6 };

    ghost may = { λ _. Unit {0} };

    fn columns(&self) -> usize {
        CONDITION_COLUMNS
    }

    fn plain(&self, i: usize, b: usize) -> usize {
        plain_bytes(self.conditions, b)
    }

    fn check(&self, n: usize, i: usize) -> Pen {
        check_condition(
            n,
            PresetCondition::of_columns(self.conditions, i * CONDITION_COLUMNS),
        )
    }

    fn fill(&self, i: usize, b: usize, out: &mut [u8], n: usize) -> usize {
        fill_condition(self.conditions, b, out, n)
    }
}
