// The structures of verdicts, and of what is read from a text, as C has them.
#![tactic(auto)]

pub mod judgements;
pub mod text;
