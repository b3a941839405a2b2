// What the listing program prints, line by line. It calls no entry.
#![tactic(auto)]

pub mod naming;
pub mod printing;
