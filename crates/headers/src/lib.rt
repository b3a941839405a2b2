// The table headers among the events of a run: how many there are, and what is known of the one that a walk over the events is in.
#![tactic(auto)]

pub mod counted;
pub mod header;
pub mod state;
