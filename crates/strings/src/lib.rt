// Where the strings of a text end: lexer/mod.rs, function by function.
#![tactic(auto)]

pub mod basic;
pub mod literal;
pub mod quotes;
