// The reserved bits at 0 of conditions that were measured.
ghost use Rattle.std.specs.Prelude.{ℕ, List, ◌≡◌, [], ◌∷◌, ◌≤◌};
ghost use Rattle.wire.specs.Layout.{flat, of, tally};
ghost use Rattle.conditions.specs.Layout.{condition};
ghost use Rattle.conditions.specs.Rows.{condition_cols};
ghost use Rattle.conditions.specs.Tally.{position_zeros};

use super::parsing::{Condition, condition_at};
use super::rows::{PresetCondition, PresetPosition};
use wire::bits::idle_bits;
use wire::list::{Tally, Zeros};

fn position_zeros(p: PresetPosition) -> u32
    ensures { (result ≡ position_zeros p) × (result ≤ 6) }
{
    if p.present == 1 {
        idle_bits(p.reserved_el, 2) + idle_bits(p.reserved_dist, 4)
    } else {
        0
    }
}

fn condition_zeros(c: PresetCondition) -> u32
    ensures { (result ≡ tally (condition ∷ []) (condition_cols c)) × (result ≤ 10) }
{
    let d = c.detail;
    if d.present == 1 {
        idle_bits(d.reserved, 4) + position_zeros(d.position)
    } else {
        0
    }
}

impl Tally for Condition {
    ghost Read = { List ℕ };

    ghost reads = { λ _. flat 13 condition };

    ghost may = { λ _ _. Unit {0} };

    ghost zeros = { λ _ r. tally (condition ∷ []) (of r) };

    ghost most = { 10 };

    fn zeros(&self, body: &[u8], at: usize) -> Zeros {
        let p = condition_at(body, at);
        Zeros {
            zeros: condition_zeros(p.condition),
            next: p.next,
        }
    }
}
