// The reserved bits at 0 of presets that were measured, with those of their conditions.
ghost use Rattle.std.specs.Prelude.{◌≡◌, ◌≤◌};
ghost use Rattle.wire.specs.Layout.{Family, layouts, tally, family_tally};
ghost use Rattle.conditions.specs.Layout.{condition};
ghost use Rattle.presets.specs.Layout.{preset, presets};
ghost use Rattle.presets.specs.Rows.{preset_cols};

use super::parsing::{Preset, preset_from};
use super::rows::GroupPreset;
use conditions::parsing::Condition;
use wire::bits::idle_bits;
use wire::list::{Tally, Zeros, rows_zeros};

// Those of the three bytes.
fn preset_zeros(p: GroupPreset) -> u32
    ensures { (result ≡ tally (layouts preset) (preset_cols p)) × (result ≤ 10) }
{
    idle_bits(p.reserved_id, 3)
        + (idle_bits(p.reserved_kind, 3) + idle_bits(p.reserved_conditions, 4))
}

// Those of its three bytes, and of its conditions.
impl Tally for Preset {
    ghost Read = { Family };

    ghost reads = { λ _. presets };

    ghost may = { λ _ _. Unit {0} };

    ghost zeros = { λ _ x. family_tally preset condition x };

    ghost most = { 170 };

    fn zeros(&self, body: &[u8], at: usize) -> Zeros {
        let p = preset_from(body, at, 0);
        let c = rows_zeros(&Condition, body, at + 3, p.conditions.count as usize);
        Zeros {
            zeros: preset_zeros(p) + c.zeros,
            next: c.next,
        }
    }
}
