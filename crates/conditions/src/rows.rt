// The rows of table 5 with their parts, and their constructors. The README names `columns` and `of_columns`, so they stand where `From` would.
ghost use Rattle.std.specs.Prelude.{◌≡◌, ◌+◌, ◌≤◌, length};
ghost use Rattle.wire.specs.Bits.{bit};
ghost use Rattle.conditions.specs.Rows.{condition_row, condition_of, no_gain, no_position, no_detail};

use wire::bits::flag;
use wire::ids::GroupId;

// mae_groupPresetAzOffset, ElOffset and DistFactor, where they are there.
// `present` is a column, not an Option: `condition_of` gives any number that is lent, and writing refuses one above 1.
#[derive(Clone, Copy, PartialEq, Eq)]
pub struct PresetPosition {
    pub present: u16,
    pub az_offset: u16,
    pub reserved_el: u16,
    pub el_offset: u16,
    pub reserved_dist: u16,
    pub dist_factor: u16,
}

impl PresetPosition {
    // Reserved bits all ones.
    pub fn new(az_offset: u16, el_offset: u16, dist_factor: u16) -> Self
        ensures { result ≡ record { present = 1; az_offset = az_offset; reserved_el = 3; el_offset = el_offset; reserved_dist = 15; dist_factor = dist_factor } }
    {
        Self {
            present: 1,
            az_offset,
            reserved_el: 3,
            el_offset,
            reserved_dist: 15,
            dist_factor,
        }
    }

    pub fn absent() -> Self
        ensures { result ≡ no_position }
    {
        Self {
            present: 0,
            az_offset: 0,
            reserved_el: 0,
            el_offset: 0,
            reserved_dist: 0,
            dist_factor: 0,
        }
    }
}

// mae_groupPresetGain, where it is there.
// `present` is a column, not an Option: `condition_of` gives any number that is lent, and writing refuses one above 1.
#[derive(Clone, Copy, PartialEq, Eq)]
pub struct PresetGain {
    pub present: u16,
    pub gain: u16,
}

impl PresetGain {
    pub fn new(gain: u16) -> Self
        ensures { result ≡ record { present = 1; gain = gain } }
    {
        Self { present: 1, gain }
    }

    pub fn absent() -> Self
        ensures { result ≡ no_gain }
    {
        Self {
            present: 0,
            gain: 0,
        }
    }
}

// What a condition says of its group, where mae_groupPresetConditionOnOff is 1.
// `present` is a column, not an Option: `condition_of` gives any number that is lent, and writing refuses one above 1.
#[derive(Clone, Copy, PartialEq, Eq)]
pub struct PresetConditionDetail {
    pub present: u16,
    pub reserved: u16,
    pub disable_gain_interactivity: u16,
    pub disable_position_interactivity: u16,
    pub gain: PresetGain,
    pub position: PresetPosition,
}

impl PresetConditionDetail {
    // Reserved bits all ones.
    pub fn new(
        disable_gain_interactivity: bool,
        disable_position_interactivity: bool,
        gain: PresetGain,
        position: PresetPosition,
    ) -> Self
        ensures { result ≡ record { present = 1; reserved = 15; disable_gain_interactivity = bit disable_gain_interactivity; disable_position_interactivity = bit disable_position_interactivity; gain = gain; position = position } }
    {
        Self {
            present: 1,
            reserved: 15,
            disable_gain_interactivity: flag(disable_gain_interactivity),
            disable_position_interactivity: flag(disable_position_interactivity),
            gain,
            position,
        }
    }

    pub fn absent() -> Self
        ensures { result ≡ no_detail }
    {
        Self {
            present: 0,
            reserved: 0,
            disable_gain_interactivity: 0,
            disable_position_interactivity: 0,
            gain: PresetGain::absent(),
            position: PresetPosition::absent(),
        }
    }
}

// A row of table 5: one condition of a preset.
#[derive(Clone, Copy, PartialEq, Eq)]
pub struct PresetCondition {
    pub group_id: GroupId,
    pub detail: PresetConditionDetail,
}

// The columns of a row of table 5.
pub const CONDITION_COLUMNS: usize = 13;

impl PresetCondition {
    pub fn new(group_id: GroupId, detail: PresetConditionDetail) -> Self
        ensures { result ≡ record { group_id = group_id; detail = detail } }
    {
        Self { group_id, detail }
    }

    pub fn columns(self) -> [u16; CONDITION_COLUMNS]
        ensures { result ≡ condition_row self }
    {
        let d = self.detail;
        let g = d.gain;
        let p = d.position;
        [
            self.group_id.0,
            d.present,
            d.reserved,
            d.disable_gain_interactivity,
            d.disable_position_interactivity,
            g.present,
            g.gain,
            p.present,
            p.az_offset,
            p.reserved_el,
            p.el_offset,
            p.reserved_dist,
            p.dist_factor,
        ]
    }

    // The row whose first column is `b`.
    pub fn of_columns(t: &[u16], b: usize) -> Self
        requires { b + 13 ≤ length t.now }
        ensures { result ≡ condition_of t.now b }
    {
        Self {
            group_id: GroupId(t[b]),
            detail: PresetConditionDetail {
                present: t[b + 1],
                reserved: t[b + 2],
                disable_gain_interactivity: t[b + 3],
                disable_position_interactivity: t[b + 4],
                gain: PresetGain {
                    present: t[b + 5],
                    gain: t[b + 6],
                },
                position: PresetPosition {
                    present: t[b + 7],
                    az_offset: t[b + 8],
                    reserved_el: t[b + 9],
                    el_offset: t[b + 10],
                    reserved_dist: t[b + 11],
                    dist_factor: t[b + 12],
                },
            },
        }
    }
}
