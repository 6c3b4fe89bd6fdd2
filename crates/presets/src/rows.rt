// The rows of tables 4 and 5 with their constructors. The README names `columns` and `of_columns`, so they stand where `From` would.
ghost use Rattle.std.specs.Prelude.{◌≡◌, ◌+◌, ◌≤◌, length};
ghost use Rattle.presets.specs.Rows.{preset_row, preset_of};

pub use conditions::rows::{
    CONDITION_COLUMNS, PresetCondition, PresetConditionDetail, PresetGain, PresetPosition,
};
use wire::ids::GroupPresetId;
use wire::rows::Range;

// A row of table 4: one preset, with the range of its conditions.
#[derive(Clone, Copy, PartialEq, Eq)]
pub struct GroupPreset {
    pub reserved_id: u16,
    pub preset_id: GroupPresetId,
    pub reserved_kind: u16,
    pub preset_kind: u16,
    pub reserved_conditions: u16,
    pub conditions: Range,
}

// The columns of a row of table 4.
pub const PRESET_COLUMNS: usize = 7;

impl GroupPreset {
    // Reserved bits all ones.
    pub fn new(preset_id: GroupPresetId, preset_kind: u16, conditions: Range) -> Self
        ensures { result ≡ record { reserved_id = 7; preset_id = preset_id; reserved_kind = 7; preset_kind = preset_kind; reserved_conditions = 15; conditions = conditions } }
    {
        Self {
            reserved_id: 7,
            preset_id,
            reserved_kind: 7,
            preset_kind,
            reserved_conditions: 15,
            conditions,
        }
    }

    pub fn columns(self) -> [u16; PRESET_COLUMNS]
        ensures { result ≡ preset_row self }
    {
        [
            self.reserved_id,
            self.preset_id.0,
            self.reserved_kind,
            self.preset_kind,
            self.reserved_conditions,
            self.conditions.first,
            self.conditions.count,
        ]
    }

    // The row whose first column is `b`.
    pub fn of_columns(t: &[u16], b: usize) -> Self
        requires { b + 7 ≤ length t.now }
        ensures { result ≡ preset_of t.now b }
    {
        Self {
            reserved_id: t[b],
            preset_id: GroupPresetId(t[b + 1]),
            reserved_kind: t[b + 2],
            preset_kind: t[b + 3],
            reserved_conditions: t[b + 4],
            conditions: Range {
                first: t[b + 5],
                count: t[b + 6],
            },
        }
    }
}
