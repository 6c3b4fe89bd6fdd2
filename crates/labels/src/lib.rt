// A list of labels of the text label body (kind 3; H.222.0 2.6.112, Table 2-124): its rows of table 7, how it is read, tallied and written. Groups have IDs and counts of
// seven bits, switch groups and presets of five; the other bits of the byte are reserved.
#![tactic(auto)]

pub mod parsing;
pub mod rows;
pub mod tallying;
pub mod writing;
