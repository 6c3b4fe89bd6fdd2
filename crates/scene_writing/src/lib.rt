// Writing the scene body (kind 2; H.222.0 2.6.110, Table 2-123): the check pass and the fill pass.
#![tactic(auto)]

pub mod writing;
