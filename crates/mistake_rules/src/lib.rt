// The list of mistakes, as definitions: what the listing leaves, and the theorems about it. They are about the rules and the pieces of a run;
// nothing is listed here.
#![tactic(auto)]

pub mod answer;
pub mod theorems;
