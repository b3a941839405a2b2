// The comma that the report of a trailing comma is about.
#![tactic(auto)]

pub mod commas;
