// Reading conditions: one pass measures, one takes what was measured and tests nothing. A body and a position stay two arguments, as in `wire::reads`.
ghost use Rattle.std.specs.Prelude.{ℕ, List, ◌≡◌, true, ◌+◌, ◌*◌, ◌≤◌, length, get_or};
ghost use Rattle.wire.specs.Prog.{done, run};
ghost use Rattle.wire.specs.Reads.{is_done, ends_out};
ghost use Rattle.wire.specs.Layout.{flat};
ghost use Rattle.wire.specs.Straight.{ends, ones, PartTaken, blanks};
ghost use Rattle.conditions.specs.Layout.{condition, detail, position};
ghost use Rattle.conditions.specs.Rows.{gain, condition_row, detail_row, position_row, gain_row, position_from, behind};

use super::rows::{
    CONDITION_COLUMNS, PresetCondition, PresetConditionDetail, PresetGain, PresetPosition,
};
use wire::bits::{part, wide};
use wire::ids::GroupId;
use wire::list::{Measure, Store};
use wire::reads::{Short, head};
use wire::rows::put_row;

// The bytes behind the flags of a detail: a gain is one, a position three.
fn behind(flags: u16) -> usize
    ensures { (result ≡ behind flags) × (result ≤ 4) }
{
    (part(flags, 2, 1) + part(flags, 0, 1) * 3) as usize
}

// Where a detail ends that is there.
fn detail_end(body: &[u8], at: usize) -> Result<usize, Short>
    requires { at ≤ length body.now }
    ensures { ends_out result ≡ ends (ones (1 + behind (get_or body.now at 0))) body.now at }
{
    let n = head(body, at, 1)?;
    head(body, n, behind(wide(body[at])))
}

// A row of table 5, as a list of them is measured, stored and tallied.
pub struct Condition;

// A detail follows exactly if its flag is 1.
impl Measure for Condition {
    ghost Read = { List ℕ };

    ghost reads = { λ _. flat 13 condition };

    fn end(&self, body: &[u8], at: usize) -> Result<usize, Short> {
        let n = head(body, at, 1)?;
        if part(wide(body[at]), 0, 1) == 1 {
            detail_end(body, n)
        } else {
            Ok(n)
        }
    }
}

// ---- taken, once measured

// The gain that begins here, if its flag is 1.
fn gain_at(body: &[u8], at: usize, present: u16) -> PresetGain
    requires { (at + present ≤ length body.now) × (present ≤ 1) }
    ensures { PartTaken 5 2 gain present (blanks 1) body.now at (gain_row result) }
{
    if present == 1 {
        PresetGain::new(part(wide(body[at]), 0, 8))
    } else {
        PresetGain::absent()
    }
}

// The position that begins here and is there.
fn position_from(body: &[u8], at: usize) -> PresetPosition
    requires { at + 3 ≤ length body.now }
    ensures { result ≡ position_from body.now at }
{
    let az = wide(body[at]);
    let el = wide(body[at + 1]);
    let dist = wide(body[at + 2]);
    PresetPosition {
        present: 1,
        az_offset: part(az, 0, 8),
        reserved_el: part(el, 6, 2),
        el_offset: part(el, 0, 6),
        reserved_dist: part(dist, 4, 4),
        dist_factor: part(dist, 0, 4),
    }
}

// The position that begins here, if its flag is 1.
fn position_at(body: &[u8], at: usize, present: u16) -> PresetPosition
    requires { (at + present * 3 ≤ length body.now) × (present ≤ 1) }
    ensures { PartTaken 7 6 position present (blanks 5) body.now at (position_row result) }
{
    if present == 1 {
        position_from(body, at)
    } else {
        PresetPosition::absent()
    }
}

// The detail that begins here and is there.
fn detail_from(body: &[u8], at: usize) -> PresetConditionDetail
    requires { at + (1 + behind (get_or body.now at 0)) ≤ length body.now }
    ensures { PartTaken 1 12 detail 1 (blanks 11) body.now at (detail_row result) }
{
    let flags = wide(body[at]);
    let g = part(flags, 2, 1);
    let p = part(flags, 0, 1);
    PresetConditionDetail {
        present: 1,
        reserved: part(flags, 4, 4),
        disable_gain_interactivity: part(flags, 3, 1),
        disable_position_interactivity: part(flags, 1, 1),
        gain: gain_at(body, at + 1, g),
        position: position_at(body, at + 1 + (g as usize), p),
    }
}

// A condition, and the next position.
#[derive(Clone, Copy, PartialEq, Eq)]
pub struct Placed {
    pub condition: PresetCondition,
    pub next: usize,
}

// A condition that was measured: nothing is left to test.
pub fn condition_at(body: &[u8], at: usize) -> Placed
    requires { (at ≤ length body.now) × (is_done (run (flat 13 condition) body.now at) ≡ true) }
    ensures { done (condition_row result.condition) result.next ≡ run (flat 13 condition) body.now at }
{
    let b = wide(body[at]);
    let group_id = GroupId(part(b, 1, 7));
    if part(b, 0, 1) == 1 {
        let detail = detail_from(body, at + 1);
        let condition = PresetCondition { group_id, detail };
        let next = at + 2 + behind(wide(body[at + 1]));
        Placed { condition, next }
    } else {
        let detail = PresetConditionDetail::absent();
        let condition = PresetCondition { group_id, detail };
        Placed {
            condition,
            next: at + 1,
        }
    }
}

impl Store for Condition {
    ghost Read = { List ℕ };

    ghost reads = { λ _. flat 13 condition };

    ghost may = { λ _ _. Unit {0} };

    ghost COLUMNS = { 13 };

    ghost columns = { λ _ r. r };

    const COLUMNS: usize = CONDITION_COLUMNS;

    fn store(&self, body: &[u8], at: usize, table: &mut [u16], to: usize) -> usize {
        let p = condition_at(body, at);
        put_row(table, to, &p.condition.columns());
        p.next
    }
}
