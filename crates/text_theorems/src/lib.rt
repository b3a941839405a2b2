// Demand 3 said of a text.
#![tactic(auto)]

pub mod theorems;
