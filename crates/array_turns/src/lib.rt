// One turn in an array, proved equal to its rule.
#![tactic(auto)]

pub mod array;
