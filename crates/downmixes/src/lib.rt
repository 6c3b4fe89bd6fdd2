// The downmix definitions of the DRC and loudness body (kind 5; H.222.0 2.6.116, Table 2-126), the rows of table 12: measured, filled, tallied and written over their layout.
#![tactic(auto)]

pub mod parsing;
pub mod rows;
pub mod writing;
