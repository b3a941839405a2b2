// The structures of answers as C has them, what they hold, and the version.
#![tactic(auto)]

pub mod answer;
pub mod options;
pub mod theorems;
pub mod version;
