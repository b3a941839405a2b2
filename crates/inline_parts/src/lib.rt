// What a turn in an inline table is made of. Each function is proved equal to its rule.
#![tactic(auto)]

pub mod parts;
