// The presets of the scene body (kind 2; H.222.0 Table 2-123), the rows of table 4, with their conditions, those of table 5: measured, filled, tallied and written
// over their layout.
#![tactic(auto)]

pub mod parsing;
pub mod rows;
pub mod tallying;
pub mod writing;
