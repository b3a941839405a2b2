// What is asked of a run before it is acted on: whether it was quiet; and what that and the two other questions amount to.
#![tactic(auto)]

pub mod run;
pub mod theorems;
