// The reserved bits at 0 of a target loudness.
ghost use Rattle.std.specs.Prelude.{◌≡◌, ◌≤◌};
ghost use Rattle.target_loudness.specs.Tally.{lower_zeros, target_zeros};

use super::rows::{DrcTargetLoudness, TargetLoudnessLower};
use wire::bits::idle_bits;

fn lower_zeros(l: TargetLoudnessLower) -> u32
    ensures { (result ≡ lower_zeros l) × (result ≤ 2) }
{
    if l.present == 1 {
        idle_bits(l.reserved, 2)
    } else {
        0
    }
}

pub fn target_zeros(t: DrcTargetLoudness) -> u32
    ensures { (result ≡ target_zeros t) × (result ≤ 4) }
{
    if t.present == 1 {
        let own = lower_zeros(t.lower) + idle_bits(t.reserved_depends, 1);
        idle_bits(t.reserved_upper, 1) + own
    } else {
        0
    }
}
