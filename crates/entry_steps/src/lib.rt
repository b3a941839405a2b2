// What every entry begins and ends with, before and behind its walk. Nothing is walked here.
#![tactic(auto)]

pub mod steps;
