// Skipping. Each function is proved equal to its rule.
#![tactic(auto)]

pub mod skipping;
