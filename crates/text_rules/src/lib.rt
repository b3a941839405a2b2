// From text to events, as definitions: what the joined entry leaves, its answers, and the room it needs. It is about the rules; no walk is needed.
#![tactic(auto)]

pub mod answer;
pub mod room;
pub mod theorems;
