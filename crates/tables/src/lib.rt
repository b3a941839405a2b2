// Tables and array tables. Each function is proved equal to its rule.
#![tactic(auto)]

pub mod table;
