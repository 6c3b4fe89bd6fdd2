// Writing DRC instructions: their bytes as numbers, the check pass with a quick test of a plain row, and the fill pass. A table and the first column of a row stay two arguments, as in `wire::rows`. How far a pen may be is asked as in `wire::pen`.
ghost use Rattle.std.specs.Prelude.{◌≡◌, true, ◌+◌, ◌*◌, ◌<◌, ◌≤◌, ◌/◌, ◌^◌, length};
ghost use Rattle.wire.specs.Pen.{reach, clean, bytes, Checked, Quick, Ready, Filled, At};
ghost use Rattle.wire.specs.Spell.{Spelt};
ghost use Rattle.wire.proofs.Layouts.Families.{front_acts};
ghost use Rattle.instructions.specs.Layout.{instruction};
ghost use Rattle.instructions.specs.Rows.{instruction_cols, instruction_of};
ghost use Rattle.instruction_writing.specs.Write.{settings_fields, effect_fields, limiter_fields, effect_acts, flags_of, instruction_acts, bare_at, row_acts};

use instructions::rows::{
    ADDITIONAL_COLUMNS, DRC_GROUP_TYPES, DrcInstructions, INSTRUCTION_COLUMNS, LimiterPeakTarget,
};
use pairs::writing::{check_pairs, fill_pairs, plain_pairs};
use scopes::writing::{check_scope, fill_scope, plain_scope};
use target_loudness::writing::{check_target, fill_target, flags_hold, target_fits, target_long};
use wire::bits::is_flag;
use wire::pen;
use wire::pen::{Fault, Pen};
use wire::rows::in_table;
use wire::spell::{Joined, check_all, fill_all, fits_all, one, two};
use wire::written::Rows;

// ---- the bytes

// Behind the scope: the DRC set, the downmix, and what follows them.
fn settings_bytes(d: DrcInstructions) -> [u32; 3]
    ensures { Spelt (settings_fields d) result }
{
    let a = Joined::none().field(d.reserved_additional, 3);
    let b = a.field(d.additional_downmix_ids.count, 3);
    let c = b.field(d.limiter_peak_target.present, 1);
    [
        two(d.reserved_set, 2, d.drc_set_id.0, 6),
        two(d.reserved_downmix, 1, d.downmix_id, 7),
        c.field(d.target_loudness.present, 1).spelt(),
    ]
}

// The high byte first.
fn effect_bytes(drc_set_effect: u16) -> [u32; 2]
    ensures { Spelt (effect_fields drc_set_effect) result }
{
    [one(drc_set_effect / 256), one(drc_set_effect % 256)]
}

fn limiter_bytes(l: LimiterPeakTarget) -> [u32; 1]
    ensures { Spelt (limiter_fields l) result }
{
    [one(l.value)]
}

// Whether the row whose first column is `b` is bare: a plain scope, no additional IDs, no limiter and no target loudness. Both passes are short for it.
fn is_bare(t: &[u16], b: usize) -> bool
    requires { b + 24 ≤ length t.now }
    ensures { result ≡ bare_at t.now b }
{
    (t[b + 1] == 0) & (t[b + 11] == 0) & ((t[b + 13] == 0) & (t[b + 15] == 0))
}

// ---- the check pass

fn all_flags_hold(d: DrcInstructions) -> bool
    ensures { result ≡ flags_of d }
{
    is_flag(d.limiter_peak_target.present) & flags_hold(d.target_loudness)
}

// Range and flags at the start of the row, then the scope, then each byte before the additional IDs at its place.
fn check_front(n: usize, d: DrcInstructions, additional: &[u16]) -> Pen
    requires { n < 2 ^ 30 }
    ensures { Checked (front_acts instruction (length additional.now / 2) (instruction_cols d)) 5 (At n) result }
{
    let inside = in_table(d.additional_downmix_ids, additional, ADDITIONAL_COLUMNS);
    let p0 = pen::demand(Ok(n), Fault::Range, inside);
    let p1 = pen::demand(p0, Fault::Field, all_flags_hold(d));
    let p2 = check_scope(p1, d.reserved_type, d.scope, &DRC_GROUP_TYPES);
    check_all(p2, true, &settings_bytes(d))
}

// Each byte behind them.
fn check_effect(p: Pen, d: DrcInstructions) -> Pen
    requires { reach p + 3 < 2 ^ 31 }
    ensures { Checked (effect_acts d) 6 p result }
{
    let limiter = d.limiter_peak_target;
    let p0 = check_all(p, true, &effect_bytes(d.drc_set_effect));
    let p1 = check_all(p0, limiter.present == 1, &limiter_bytes(limiter));
    check_target(p1, d.target_loudness)
}

fn check_instruction(n: usize, d: DrcInstructions, additional: &[u16]) -> Pen
    requires { n < 2 ^ 30 }
    ensures { Checked (instruction_acts additional.now d) 18 (At n) result }
{
    let m = check_front(n, d, additional)?;
    let q = check_pairs(m, d.additional_downmix_ids, additional);
    check_effect(q, d)
}

// Whether the fields behind the additional IDs fit.
fn effect_fits(d: DrcInstructions) -> bool
    ensures { result ≡ clean (effect_acts d) }
{
    let limiter = d.limiter_peak_target;
    if limiter.present == 1 {
        fits_all(&limiter_bytes(limiter)) & target_fits(d.target_loudness)
    } else {
        target_fits(d.target_loudness)
    }
}

// The bytes behind the additional IDs of one whose flags hold and whose fields fit.
fn effect_long(d: DrcInstructions) -> usize
    requires { (clean (effect_acts d) ≡ true) × (d.limiter_peak_target.present ≤ 1) }
    ensures { (result ≡ length (bytes (effect_acts d))) × (result ≤ 6) }
{
    2 + (d.limiter_peak_target.present as usize) + target_long(d.target_loudness)
}

// Its bytes, or 0 if it has a fault: in almost every row nothing is wrong, and this is seen at once. A flag is a field of one bit, so the bytes tell.
fn plain_bytes(d: DrcInstructions, additional: &[u16]) -> usize
    ensures { Quick (instruction_acts additional.now d) 18 result }
{
    let head = plain_scope(d.reserved_type, d.scope, &DRC_GROUP_TYPES);
    let inside = in_table(d.additional_downmix_ids, additional, ADDITIONAL_COLUMNS);
    if inside & (0 < head) & (fits_all(&settings_bytes(d)) & effect_fits(d)) {
        let count = d.additional_downmix_ids.count as usize;
        if plain_pairs(d.additional_downmix_ids, additional) == count {
            return head + 3 + count + effect_long(d);
        }
    }
    0
}

// The same of a bare row: types 0 and 1 carry no ID.
fn bare_bytes(t: &[u16], b: usize, additional: &[u16]) -> usize
    requires { (b + 24 ≤ length t.now) × (bare_at t.now b ≡ true) }
    ensures { Quick (instruction_acts additional.now (instruction_of t.now b)) 18 result }
{
    let d = DrcInstructions::of_columns(t, b);
    let inside = in_table(d.additional_downmix_ids, additional, ADDITIONAL_COLUMNS);
    let typed = two(t[b], 6, t[b + 2], 1) < 65536;
    if inside & typed & fits_all(&settings_bytes(d)) {
        6
    } else {
        0
    }
}

// ---- the fill pass

// What stands behind the additional IDs.
fn fill_effect(d: DrcInstructions, out: &mut [u8], n: usize) -> usize
    requires { Ready (effect_acts d) n out.old }
    ensures { Filled (effect_acts d) n out.old result out.new }
{
    let limiter = d.limiter_peak_target;
    let n1 = fill_all(out, n, true, &effect_bytes(d.drc_set_effect));
    let n2 = fill_all(out, n1, limiter.present == 1, &limiter_bytes(limiter));
    fill_target(d.target_loudness, out, n2)
}

fn fill_instruction(d: DrcInstructions, additional: &[u16], out: &mut [u8], n: usize) -> usize
    requires { Ready (instruction_acts additional.now d) n out.old }
    ensures { Filled (instruction_acts additional.now d) n out.old result out.new }
{
    let n1 = fill_scope(d.reserved_type, d.scope, out, n);
    let n2 = fill_all(out, n1, true, &settings_bytes(d));
    let n3 = fill_pairs(d.additional_downmix_ids, additional, out, n2);
    fill_effect(d, out, n3)
}

// ---- the rows of a table

// The rows of table 9 that are written, and table 10 with their additional IDs.
#[derive(Clone, Copy)]
pub struct Instructions<'a> {
    pub instructions: &'a [u16],
    pub additional: &'a [u16],
}

impl Rows for Instructions<'_> {
    ghost columns = { 24 };

    ghost table = { λ t. t.instructions.now };

    ghost acts = { λ t i. row_acts t.instructions.now t.additional.now i };

    ghost most = { 18 };

    ghost may = { λ _. Unit {0} };

    fn columns(&self) -> usize {
        INSTRUCTION_COLUMNS
    }

    fn plain(&self, i: usize, b: usize) -> usize {
        if is_bare(self.instructions, b) {
            return bare_bytes(self.instructions, b, self.additional);
        }
        let d = DrcInstructions::of_columns(self.instructions, b);
        plain_bytes(d, self.additional)
    }

    fn check(&self, n: usize, i: usize) -> Pen {
        let d = DrcInstructions::of_columns(self.instructions, i * INSTRUCTION_COLUMNS);
        check_instruction(n, d, self.additional)
    }

    // Six bytes if it is bare.
    fn fill(&self, i: usize, b: usize, out: &mut [u8], n: usize) -> usize {
        let t = self.instructions;
        if is_bare(t, b) {
            let d = DrcInstructions::of_columns(t, b);
            let n1 = fill_all(out, n, true, &[two(t[b], 6, t[b + 2], 2)]);
            let n2 = fill_all(out, n1, true, &settings_bytes(d));
            return fill_all(out, n2, true, &effect_bytes(d.drc_set_effect));
        }
        let d = DrcInstructions::of_columns(t, b);
        fill_instruction(d, self.additional, out, n)
    }
}
