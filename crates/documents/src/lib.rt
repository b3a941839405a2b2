// The document loop, proved equal to its rule.
#![tactic(auto)]

pub mod document;
