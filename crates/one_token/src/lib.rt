// One token of a text: what it starts with, and process_token of lexer/mod.rs.
#![tactic(auto)]

pub mod lexer;
pub mod start;
