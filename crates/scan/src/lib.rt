// What is right of a text's tokens: the rules of lexer/mod.rs as definitions in specs/, the types that rules and code share, and the tokens
// that end at the first byte of a set.
#![tactic(auto)]

pub mod lexer;
pub mod sets;
pub mod start;
