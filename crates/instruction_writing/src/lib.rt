// Writing the DRC instructions of the DRC and loudness body (kind 5; H.222.0 2.6.116, Table 2-126) and their additional downmix IDs, the rows of tables 9 and 10: the check pass and the fill pass.
#![tactic(auto)]

pub mod writing;
