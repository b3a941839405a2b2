// The structures of an index of headers as C has them.
#![tactic(auto)]

pub mod indexes;
