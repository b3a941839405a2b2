// Demand 3 as theorems, each the contract of a function; the definitions and the laws are in the crate beneath.
#![tactic(auto)]

pub mod theorems;
