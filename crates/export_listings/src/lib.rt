// The structures of lists of mistakes as C has them.
#![tactic(auto)]

pub mod listings;
