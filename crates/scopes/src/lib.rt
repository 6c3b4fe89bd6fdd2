// The scope of a DRC instruction or a loudness entry (kind 5; H.222.0 2.6.116, Table 2-126), over the list of the types that carry a group ID.
#![tactic(auto)]

pub mod parsing;
pub mod rows;
pub mod tallying;
pub mod writing;
