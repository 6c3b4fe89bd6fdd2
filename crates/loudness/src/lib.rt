// The loudness entries of the DRC and loudness body (kind 5; H.222.0 2.6.116, Table 2-126), the rows of table 11: measured, filled, tallied and written over their layout.
#![tactic(auto)]

pub mod parsing;
pub mod rows;
pub mod tallying;
pub mod writing;
