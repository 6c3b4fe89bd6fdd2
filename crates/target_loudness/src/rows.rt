// The target loudness and its lower value as columns of a row of table 9, with their constructors. The README names `columns` and `of_columns`, so they stand where `From` would.
ghost use Rattle.std.specs.Prelude.{◌≡◌, ◌+◌, ◌≤◌, length};
ghost use Rattle.target_loudness.specs.Rows.{no_lower, no_target, lower_of, target_of};

use wire::bits::{ones, wide};
use wire::ids::DrcSetId;

// The lower value of a target loudness, with the reserved bits before it, where it is there.
// `present` is a column, not an Option: `lower_of` gives any number that is lent, and writing refuses one above 1.
#[derive(Clone, Copy, PartialEq, Eq)]
pub struct TargetLoudnessLower {
    pub present: u16,
    pub reserved: u16,
    pub value: u16,
}

impl TargetLoudnessLower {
    // Reserved bits all ones.
    pub fn new(value: u16) -> Self
        ensures { result ≡ record { present = 1; reserved = 3; value = value } }
    {
        Self {
            present: 1,
            reserved: wide(ones(2)),
            value,
        }
    }

    pub fn absent() -> Self
        ensures { result ≡ no_lower }
    {
        Self {
            present: 0,
            reserved: 0,
            value: 0,
        }
    }
}

// The target loudness block of a DRC set, where it is there.
// `present` is a column, not an Option: `target_of` gives any number that is lent, and writing refuses one above 1.
#[derive(Clone, Copy, PartialEq, Eq)]
pub struct DrcTargetLoudness {
    pub present: u16,
    pub reserved_upper: u16,
    pub upper: u16,
    pub lower: TargetLoudnessLower,
    pub reserved_depends: u16,
    pub depends_on_drc_set: DrcSetId,
    pub no_independent_use_or_reserved: u16,
}

impl DrcTargetLoudness {
    // Reserved bits all ones, and no lower value.
    pub fn new(
        upper: u16,
        depends_on_drc_set: DrcSetId,
        no_independent_use_or_reserved: u16,
    ) -> Self
        ensures { result ≡ record { present = 1; reserved_upper = 1; upper = upper; lower = no_lower; reserved_depends = 1; depends_on_drc_set = depends_on_drc_set; no_independent_use_or_reserved = no_independent_use_or_reserved } }
    {
        Self {
            present: 1,
            reserved_upper: wide(ones(1)),
            upper,
            lower: TargetLoudnessLower::absent(),
            reserved_depends: wide(ones(1)),
            depends_on_drc_set,
            no_independent_use_or_reserved,
        }
    }

    pub fn absent() -> Self
        ensures { result ≡ no_target }
    {
        Self {
            present: 0,
            reserved_upper: 0,
            upper: 0,
            lower: TargetLoudnessLower::absent(),
            reserved_depends: 0,
            depends_on_drc_set: DrcSetId(0),
            no_independent_use_or_reserved: 0,
        }
    }

    // Of the row of table 9 whose first column is `b`.
    pub fn of_columns(t: &[u16], b: usize) -> Self
        requires { b + 24 ≤ length t.now }
        ensures { result ≡ target_of t.now b }
    {
        Self {
            present: t[b + 15],
            reserved_upper: t[b + 16],
            upper: t[b + 17],
            lower: TargetLoudnessLower {
                present: t[b + 18],
                reserved: t[b + 19],
                value: t[b + 20],
            },
            reserved_depends: t[b + 21],
            depends_on_drc_set: DrcSetId(t[b + 22]),
            no_independent_use_or_reserved: t[b + 23],
        }
    }
}
