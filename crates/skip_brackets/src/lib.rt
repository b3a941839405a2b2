// Skipping to a closing bracket, proved equal to its rule.
#![tactic(auto)]

pub mod brackets;
