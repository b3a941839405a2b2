// What is wrong in a run by its events alone: the pieces, and the messages for them.
#![tactic(auto)]

pub mod messages;
pub mod pieces;
pub mod sorts;
