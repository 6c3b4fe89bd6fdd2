// Answers a case of the list (docs/ORACLE.md) by calling the library for hosts.
#![tactic(auto)]

pub mod reads;
pub mod writes;
