// What the replay program reads from its file, compares and counts. It calls no entry.
#![tactic(auto)]

pub mod comparing;
pub mod frames;
pub mod tally;
