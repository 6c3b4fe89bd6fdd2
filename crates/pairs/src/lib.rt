// Rows of one byte, a reserved bit and seven bits: the members of the switch groups of the scene body (kind 2; H.222.0 Table 2-123), rows of table 3, and the additional downmix IDs of the DRC
// instructions (kind 5; H.222.0 Table 2-126), rows of table 10. Filled, tallied and written over their one layout.
#![tactic(auto)]

pub mod parsing;
pub mod tallying;
pub mod writing;

// The columns of a row.
pub const PAIR_COLUMNS: usize = 2;
