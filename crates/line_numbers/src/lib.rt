// What is found of the errors when the walk is over: the line of each, and the comma that the report of a trailing comma is about.
#![tactic(auto)]

pub mod numbering;
