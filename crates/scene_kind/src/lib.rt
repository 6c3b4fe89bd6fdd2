// The scene body (kind 2; H.222.0 2.6.110, Table 2-123) as a kind: its top record, and its definitions and laws, all from the layouts of its rows.
#![tactic(auto)]

pub mod rows;
