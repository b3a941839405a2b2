// What each kind of token is to the rules, and each event in numbers: the definitions of the crate rules, as code.
#![tactic(auto)]

pub mod array;
pub mod document;
pub mod event;
pub mod keys;
pub mod scalar;
pub mod skipping;
pub mod value;
