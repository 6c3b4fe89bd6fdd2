// The list of cases that the Rust was asked (docs/ORACLE.md): what its lines say, and the bodies and tables that they fill.
#![tactic(auto)]

pub mod list;
pub mod tables;
