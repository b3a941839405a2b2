// What the program of the limits does without an entry: makes lists, and prints what came.
#![tactic(auto)]

pub mod lists;
pub mod printing;
