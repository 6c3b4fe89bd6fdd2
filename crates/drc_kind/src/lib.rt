// The DRC and loudness body (kind 5; H.222.0 2.6.116, Table 2-126) as a kind: its top record, and its definitions and laws, all from the layouts of its rows.
#![tactic(auto)]

pub mod rows;
