// What stands where a part of an expression should. Each function is proved equal to its rule.
#![tactic(auto)]

pub mod strays;
