// The ends of lines.
#![tactic(auto)]

pub mod line_end;
