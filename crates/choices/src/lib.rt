// What a caller chooses: modes by their numbers, and what an entry answers to one.
#![tactic(auto)]

pub mod modes;
