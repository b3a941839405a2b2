// How long the lists of a run can be, for a list of n records: the costs in specs/, and here the theorems.
#![tactic(auto)]

pub mod theorems;
