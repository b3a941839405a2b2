// Whether a list of token records is good to act on. This is what programs cite for a yes.
#![tactic(auto)]

pub mod known;
pub mod verdict;
