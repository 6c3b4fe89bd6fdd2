// Writing the DRC and loudness body (kind 5; H.222.0 2.6.116, Table 2-126): both passes.
#![tactic(auto)]

pub mod writing;
