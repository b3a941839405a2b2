// The line of a place, counted from the first token on.
#![tactic(auto)]

pub mod points;
