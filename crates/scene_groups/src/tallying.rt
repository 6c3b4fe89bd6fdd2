// The reserved bits at 0 of groups that were measured.
ghost use Rattle.std.specs.Prelude.{ℕ, List, ◌≡◌, [], ◌∷◌, ◌≤◌, eqb};
ghost use Rattle.wire.specs.Act.{pick};
ghost use Rattle.wire.specs.Layout.{flat, of, tally};
ghost use Rattle.scene_groups.specs.Layout.{group};
ghost use Rattle.scene_groups.specs.Rows.{group_cols};
ghost use Rattle.scene_groups.specs.Tally.{position_zeros, gain_zeros};

use super::parsing::{Group, group_at};
use super::rows::{GainInteractivity, PositionInteractivity, SceneGroup};
use wire::bits::idle_bits;
use wire::list::{Tally, Zeros};

fn position_zeros(p: PositionInteractivity) -> u32
    ensures { (result ≡ pick (eqb p.present 1) (position_zeros p) 0) × (result ≤ 8) }
{
    if p.present == 1 {
        let az = idle_bits(p.reserved_min_az, 1) + idle_bits(p.reserved_max_az, 1);
        let el = idle_bits(p.reserved_min_el, 3) + idle_bits(p.reserved_max_el, 3);
        az + el
    } else {
        0
    }
}

fn gain_zeros(g: GainInteractivity) -> u32
    ensures { (result ≡ pick (eqb g.present 1) (gain_zeros g) 0) × (result ≤ 5) }
{
    if g.present == 1 {
        idle_bits(g.reserved_min, 2) + idle_bits(g.reserved_max, 3)
    } else {
        0
    }
}

fn group_zeros(g: SceneGroup) -> u32
    ensures { (result ≡ tally (group ∷ []) (group_cols g)) × (result ≤ 21) }
{
    let flags = idle_bits(g.reserved_flags, 3);
    let head = idle_bits(g.reserved_id, 1) + flags + idle_bits(g.reserved_kind, 4);
    head + position_zeros(g.position) + gain_zeros(g.gain)
}

impl Tally for Group {
    ghost Read = { List ℕ };

    ghost reads = { λ _. flat 27 group };

    ghost may = { λ _ _. Unit {0} };

    ghost zeros = { λ _ r. tally (group ∷ []) (of r) };

    ghost most = { 21 };

    fn zeros(&self, body: &[u8], at: usize) -> Zeros {
        let p = group_at(body, at);
        Zeros {
            zeros: group_zeros(p.group),
            next: p.next,
        }
    }
}
