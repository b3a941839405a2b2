// One entry of the index of headers: written, and read again.
#![tactic(auto)]

pub mod entry;
pub mod reading;
