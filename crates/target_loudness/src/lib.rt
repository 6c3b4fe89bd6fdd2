// The target loudness of a DRC instruction (kind 5; H.222.0 2.6.116, Table 2-126), an optional part with an optional lower value inside.
#![tactic(auto)]

pub mod parsing;
pub mod rows;
pub mod tallying;
pub mod writing;
