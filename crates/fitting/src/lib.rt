// What fits: the token grammar and what a quiet run is, as definitions in specs/; in proofs/ the laws that tie them to the rules; here what the definitions rule out.
#![tactic(auto)]

pub mod ruled_out;
