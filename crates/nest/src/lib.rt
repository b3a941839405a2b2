// Arrays and inline tables that open one another: the one cycle.
#![tactic(auto)]

pub mod nest;
