// What is right: the rules of document.rs as definitions in specs/, and here the types that the rules and the code share.
#![tactic(auto)]

pub mod answer;
pub mod array;
pub mod document;
pub mod event;
pub mod inline_table;
pub mod keys;
pub mod options;
pub mod scalar;
pub mod skipping;
pub mod theorems;
pub mod value;
