// The verdict over a run: whether a list of token records is good to act on, by what the run of the document entry left. Nothing is run here.
#![tactic(auto)]

pub mod run;
pub mod theorems;
pub mod verdict;
