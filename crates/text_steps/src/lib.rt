// What the entries from a text do but for the run: they lex, refuse or hand on, and say what was read. And the yes of a text, as definitions with
// the theorems about it.
#![tactic(auto)]

pub mod entry;
pub mod theorems;
pub mod verdict;
