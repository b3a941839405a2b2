// The check of a list, before anything is read from it.
#![tactic(auto)]

pub mod check;
