// From text to events: the lexer and the document entry joined; and the yes of a text. This is what programs cite.
#![tactic(auto)]

pub mod entry;
pub mod verdict;
