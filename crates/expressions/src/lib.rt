// Expressions: a key, `=` and a value. Each function is proved equal to its rule.
#![tactic(auto)]

pub mod expression;
