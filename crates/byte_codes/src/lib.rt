// What each byte of a text is to the lexer, in a table, and what is looked for by it.
#![tactic(auto)]

pub mod codes;
pub mod table;
