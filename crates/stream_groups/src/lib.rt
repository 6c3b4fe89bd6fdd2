// The groups of the multi_stream body (kind 4; H.222.0 2.6.114, Table 2-125), the rows of table 8: measured, filled and written over their layout. They have no reserved bits.
#![tactic(auto)]

pub mod parsing;
pub mod rows;
pub mod writing;
