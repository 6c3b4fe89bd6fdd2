// The rows of table 9, with their constructors. A row of table 10 is its two columns: reserved bit and ID. The README names `columns` and `of_columns`, so they stand where `From` would.
ghost use Rattle.std.specs.Prelude.{◌≡◌, ◌+◌, ◌≤◌, length};
ghost use Rattle.target_loudness.specs.Rows.{no_target};
ghost use Rattle.instructions.specs.Rows.{no_limiter, instruction_row, instruction_of};

use scopes::rows::DrcScope;
use target_loudness::rows::DrcTargetLoudness;
use wire::bits::{ones, wide};
use wire::ids::DrcSetId;
use wire::rows::Range;

// The types of a scope that carry a group ID in an instruction.
pub const DRC_GROUP_TYPES: [u16; 1] = [2];

// bsLimiterPeakTarget, where it is there.
// `present` is a column, not an Option: `instruction_of` gives any number that is lent, and writing refuses one above 1.
#[derive(Clone, Copy, PartialEq, Eq)]
pub struct LimiterPeakTarget {
    pub present: u16,
    pub value: u16,
}

impl LimiterPeakTarget {
    pub fn new(value: u16) -> Self
        ensures { result ≡ record { present = 1; value = value } }
    {
        Self { present: 1, value }
    }

    pub fn absent() -> Self
        ensures { result ≡ no_limiter }
    {
        Self {
            present: 0,
            value: 0,
        }
    }
}

// One drcInstructionsUniDrc entry: its additional downmix IDs are rows of table 10.
#[derive(Clone, Copy, PartialEq, Eq)]
pub struct DrcInstructions {
    pub reserved_type: u16,
    pub scope: DrcScope,
    pub reserved_set: u16,
    pub drc_set_id: DrcSetId,
    pub reserved_downmix: u16,
    pub downmix_id: u16,
    pub reserved_additional: u16,
    pub additional_downmix_ids: Range,
    pub drc_set_effect: u16,
    pub limiter_peak_target: LimiterPeakTarget,
    pub target_loudness: DrcTargetLoudness,
}

// The columns of a row of table 9, and of a row of table 10.
pub const INSTRUCTION_COLUMNS: usize = 24;

pub const ADDITIONAL_COLUMNS: usize = 2;

impl DrcInstructions {
    // Reserved bits all ones, no additional downmix IDs, no limiter and no target loudness.
    pub fn new(scope: DrcScope, drc_set_id: DrcSetId, downmix_id: u16, drc_set_effect: u16) -> Self
        ensures { result ≡ record { reserved_type = 63; scope = scope; reserved_set = 3; drc_set_id = drc_set_id; reserved_downmix = 1; downmix_id = downmix_id; reserved_additional = 7; additional_downmix_ids = record { first = 0; count = 0 }; drc_set_effect = drc_set_effect; limiter_peak_target = no_limiter; target_loudness = no_target } }
    {
        Self {
            reserved_type: wide(ones(6)),
            scope,
            reserved_set: wide(ones(2)),
            drc_set_id,
            reserved_downmix: wide(ones(1)),
            downmix_id,
            reserved_additional: wide(ones(3)),
            additional_downmix_ids: Range { first: 0, count: 0 },
            drc_set_effect,
            limiter_peak_target: LimiterPeakTarget::absent(),
            target_loudness: DrcTargetLoudness::absent(),
        }
    }

    pub fn columns(self) -> [u16; INSTRUCTION_COLUMNS]
        ensures { result ≡ instruction_row self }
    {
        let scope = self.scope;
        let s = scope.columns();
        let limiter = self.limiter_peak_target;
        let target = self.target_loudness;
        let lower = target.lower;
        [
            self.reserved_type,
            s[0],
            s[1],
            s[2],
            s[3],
            self.reserved_set,
            self.drc_set_id.0,
            self.reserved_downmix,
            self.downmix_id,
            self.reserved_additional,
            self.additional_downmix_ids.first,
            self.additional_downmix_ids.count,
            self.drc_set_effect,
            limiter.present,
            limiter.value,
            target.present,
            target.reserved_upper,
            target.upper,
            lower.present,
            lower.reserved,
            lower.value,
            target.reserved_depends,
            target.depends_on_drc_set.0,
            target.no_independent_use_or_reserved,
        ]
    }

    // The row whose first column is `b`.
    pub fn of_columns(t: &[u16], b: usize) -> Self
        requires { b + 24 ≤ length t.now }
        ensures { result ≡ instruction_of t.now b }
    {
        Self {
            reserved_type: t[b],
            scope: DrcScope::of_columns(t, b + 1),
            reserved_set: t[b + 5],
            drc_set_id: DrcSetId(t[b + 6]),
            reserved_downmix: t[b + 7],
            downmix_id: t[b + 8],
            reserved_additional: t[b + 9],
            additional_downmix_ids: Range {
                first: t[b + 10],
                count: t[b + 11],
            },
            drc_set_effect: t[b + 12],
            limiter_peak_target: LimiterPeakTarget {
                present: t[b + 13],
                value: t[b + 14],
            },
            target_loudness: DrcTargetLoudness::of_columns(t, b),
        }
    }
}
