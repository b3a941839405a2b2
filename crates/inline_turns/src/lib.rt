// One turn in an inline table, proved equal to its rule.
#![tactic(auto)]

pub mod inline_table;
pub mod irregular;
pub mod table_turn;
