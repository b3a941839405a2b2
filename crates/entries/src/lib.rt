// The four entries. This is what programs cite.
#![tactic(auto)]

pub mod entries;
pub mod theorems;
