// Reading DRC instructions: one pass measures them and counts their additional IDs, one takes what was measured and tests nothing. A body and a position stay two arguments, as in `wire::reads`.
ghost use Rattle.std.specs.Prelude.{◌≡◌, true, ◌+◌, ◌-◌, ◌*◌, ◌<◌, ◌≤◌, length, get_or};
ghost use mathlib.Core.List.{◌∷◌, ◌++◌, flatten};
ghost use Rattle.wire.specs.Bits.{total, part};
ghost use Rattle.wire.specs.Prog.{done, run};
ghost use Rattle.wire.specs.Reads.{map_out, is_done, ends_out};
ghost use Rattle.wire.specs.Layout.{Family, broken_row, blank};
ghost use Rattle.wire.specs.Straight.{ends, spans, PartTaken, blanks};
ghost use Rattle.target_loudness.specs.Rows.{target_row};
ghost use Rattle.instructions.specs.Layout.{settings, limiter, instruction, instructions};
ghost use Rattle.instructions.specs.Rows.{limiter_row, instruction_row, effect_bytes, EffectTaken};

use super::rows::{
    ADDITIONAL_COLUMNS, DRC_GROUP_TYPES, DrcInstructions, INSTRUCTION_COLUMNS, LimiterPeakTarget,
};
use pairs::parsing::Pair;
use scopes::parsing::{id_bytes, scope_at};
use target_loudness::parsing::{target_at, target_end, target_size};
use target_loudness::rows::DrcTargetLoudness;
use wire::bits::{part, wide};
use wire::ids::DrcSetId;
use wire::list::{Count, Nest, store_rows};
use wire::reads::{Short, head};
use wire::rows::{Range, put_row};

// An instruction, as a list of them is measured, stored and tallied.
pub struct Instruction;

// ---- measured

// Where the bytes before the additional IDs end: the type, an ID if it has one, and three more.
fn settings_end(body: &[u8], at: usize) -> Result<usize, Short>
    requires { at ≤ length body.now }
    ensures { ends_out result ≡ ends (spans settings blank body.now at) body.now at }
{
    let n = head(body, at, 1)?;
    head(
        body,
        n,
        id_bytes(&DRC_GROUP_TYPES, part(wide(body[at]), 0, 2)) + 3,
    )
}

// Its rows are its additional IDs. These, the effect and the limiter are single bytes, so one comparison tells whether they are there.
impl Count for Instruction {
    ghost Read = { Family };

    ghost reads = { λ _. instructions };

    ghost kids = { λ _ x. length x.1 };

    ghost most = { 7 };

    fn kids(&self, body: &[u8], at: usize) -> Result<(usize, usize), Short> {
        let n = settings_end(body, at)?;
        let c = wide(body[n - 1]);
        let count = part(c, 2, 3) as usize;
        let m = head(body, n, count + 2 + (part(c, 1, 1) as usize))?;
        let next = target_end(body, m, part(c, 0, 1))?;
        Ok((count, next))
    }
}

// ---- taken, once measured

// The limiter that begins here, if its flag is 1.
fn limiter_at(body: &[u8], at: usize, present: u16) -> LimiterPeakTarget
    requires { (at + present ≤ length body.now) × (present ≤ 1) }
    ensures { PartTaken 13 2 limiter present (blanks 1) body.now at (limiter_row result) }
{
    if present == 1 {
        LimiterPeakTarget::new(part(wide(body[at]), 0, 8))
    } else {
        LimiterPeakTarget::absent()
    }
}

// What stands behind the additional IDs, and the next position.
#[derive(Clone, Copy, PartialEq, Eq)]
struct Effect {
    drc_set_effect: u16,
    limiter_peak_target: LimiterPeakTarget,
    target_loudness: DrcTargetLoudness,
    next: usize,
}

// The two bytes of its effect.
fn word_at(body: &[u8], at: usize) -> u16
    requires { at + 2 ≤ length body.now }
    ensures { result ≡ get_or body.now at 0 * 256 + get_or body.now (at + 1) 0 }
{
    let high = wide(body[at]);
    let low = wide(body[at + 1]);
    high * 256 + low
}

// With neither of its two parts.
fn bare_effect_at(body: &[u8], at: usize) -> Effect
    requires { at + 2 ≤ length body.now }
    ensures { EffectTaken 0 0 body.now at (result.drc_set_effect ∷ limiter_row result.limiter_peak_target ++ target_row result.target_loudness) × (result.next ≡ at + 2) }
{
    Effect {
        drc_set_effect: word_at(body, at),
        limiter_peak_target: LimiterPeakTarget::absent(),
        target_loudness: DrcTargetLoudness::absent(),
        next: at + 2,
    }
}

// By the flags of its two parts.
fn effect_at(body: &[u8], at: usize, limiter: u16, loud: u16) -> Effect
    requires { (at + effect_bytes limiter loud body.now at ≤ length body.now) × (limiter ≤ 1) × (loud ≤ 1) }
    ensures { EffectTaken limiter loud body.now at (result.drc_set_effect ∷ limiter_row result.limiter_peak_target ++ target_row result.target_loudness) × (result.next ≡ at + effect_bytes limiter loud body.now at) }
{
    let behind = at + 2 + (limiter as usize);
    Effect {
        drc_set_effect: word_at(body, at),
        limiter_peak_target: limiter_at(body, at + 2, limiter),
        target_loudness: target_at(body, behind, loud),
        next: behind + target_size(body, behind, loud),
    }
}

// An instruction, where its additional IDs begin, and the next position.
#[derive(Clone, Copy, PartialEq, Eq)]
pub struct Placed {
    pub instruction: DrcInstructions,
    pub begins: usize,
    pub next: usize,
}

// By where its additional IDs begin, the byte before them, and what stands behind them.
fn instruction_with(body: &[u8], at: usize, first: u16, begins: usize, c: u16, e: Effect) -> Placed
    requires { (at ≤ length body.now) × (is_done (run instructions body.now at) ≡ true) × (begins ≡ at + total (spans settings blank body.now at)) × (c ≡ get_or body.now (begins - 1) 0) × EffectTaken (part 1 1 c) (part 0 1 c) body.now (begins + part 2 3 c) (e.drc_set_effect ∷ limiter_row e.limiter_peak_target ++ target_row e.target_loudness) × (e.next ≡ begins + part 2 3 c + effect_bytes (part 1 1 c) (part 0 1 c) body.now (begins + part 2 3 c)) }
    ensures { (done (instruction_row result.instruction) result.next ≡ map_out (λ x. broken_row instruction (first, x)) (run instructions body.now at)) × (result.begins ≡ begins) }
{
    let set = wide(body[begins - 3]);
    let downmix = wide(body[begins - 2]);
    let count = part(c, 2, 3);
    let t = scope_at(body, at, &DRC_GROUP_TYPES);
    let instruction = DrcInstructions {
        reserved_type: t.reserved_type,
        scope: t.scope,
        reserved_set: part(set, 6, 2),
        drc_set_id: DrcSetId(part(set, 0, 6)),
        reserved_downmix: part(downmix, 7, 1),
        downmix_id: part(downmix, 0, 7),
        reserved_additional: part(c, 5, 3),
        additional_downmix_ids: Range { first, count },
        drc_set_effect: e.drc_set_effect,
        limiter_peak_target: e.limiter_peak_target,
        target_loudness: e.target_loudness,
    };
    Placed {
        instruction,
        begins,
        next: e.next,
    }
}

// An instruction that was measured, whose additional IDs are rows of table 10 from `first` on. If it has none, and neither part behind them, that is known from one test.
pub fn instruction_at(body: &[u8], at: usize, first: u16) -> Placed
    requires { (at ≤ length body.now) × (is_done (run instructions body.now at) ≡ true) }
    ensures { (done (instruction_row result.instruction) result.next ≡ map_out (λ x. broken_row instruction (first, x)) (run instructions body.now at)) × (result.begins ≡ at + total (spans settings blank body.now at)) }
{
    let begins = at + 4 + id_bytes(&DRC_GROUP_TYPES, part(wide(body[at]), 0, 2));
    let c = wide(body[begins - 1]);
    if part(c, 0, 5) == 0 {
        let bare = bare_effect_at(body, begins);
        return instruction_with(body, at, first, begins, c, bare);
    }
    let behind = begins + (part(c, 2, 3) as usize);
    let e = effect_at(body, behind, part(c, 1, 1), part(c, 0, 1));
    instruction_with(body, at, first, begins, c, e)
}

// ---- filling: nothing is left to test

// Its additional IDs are rows of table 10.
impl Nest for Instruction {
    ghost Read = { Family };

    ghost reads = { λ _. instructions };

    ghost may = { λ _ _. Unit {0} };

    ghost COLUMNS = { 24 };

    ghost KID_COLUMNS = { 2 };

    ghost size = { λ _ x. length x.1 };

    ghost columns = { λ _ n x. broken_row instruction (n, x) };

    ghost kids = { λ _ x. flatten x.1 };

    const COLUMNS: usize = INSTRUCTION_COLUMNS;

    fn store(
        &self,
        body: &[u8],
        at: usize,
        outer: &mut [u16],
        to: usize,
        inner: &mut [u16],
        first: usize,
    ) -> (usize, usize) {
        let p = instruction_at(body, at, first as u16);
        let count = p.instruction.additional_downmix_ids.count as usize;
        let _ = store_rows(
            &Pair,
            body,
            p.begins,
            count,
            inner,
            first * ADDITIONAL_COLUMNS,
        );
        put_row(outer, to, &p.instruction.columns());
        (p.next, first + count)
    }
}
