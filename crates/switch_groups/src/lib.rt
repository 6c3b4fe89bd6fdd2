// The switch groups of the scene body (kind 2; H.222.0 Table 2-123) and their members, the rows of tables 2 and 3: measured, filled, tallied and written over their layouts.
#![tactic(auto)]

pub mod parsing;
pub mod rows;
pub mod tallying;
pub mod writing;
