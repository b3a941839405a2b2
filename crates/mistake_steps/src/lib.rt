// What a turn of the listing is made of: the error records that go before a piece, whether one accounts for it, and mistakes put into the lent
// buffer.
#![tactic(auto)]

pub mod putting;
pub mod records;
