// The DRC instructions of the DRC and loudness body (kind 5; H.222.0 2.6.116, Table 2-126) and their additional downmix IDs, the rows of tables 9 and 10: measured, filled and tallied
// over their layouts.
#![tactic(auto)]

pub mod parsing;
pub mod rows;
pub mod tallying;
