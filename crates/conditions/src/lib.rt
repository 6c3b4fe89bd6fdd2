// The conditions of the scene body's presets (kind 2; H.222.0 Table 2-123), the rows of table 5: measured, taken, tallied and written over their layout.
#![tactic(auto)]

pub mod parsing;
pub mod rows;
pub mod tallying;
pub mod writing;
