// Turns of an array, up to one behind which a bracket opens or the array is over.
#![tactic(auto)]

pub mod turns;
