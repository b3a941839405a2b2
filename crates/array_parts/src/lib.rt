// What a turn in an array is made of, and what a turn in an array or an inline table promises. Each function is proved equal to its rule.
#![tactic(auto)]

pub mod parts;
pub mod turn;
