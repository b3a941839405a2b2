// Emitting: the buffers that are lent, and the numbers of messages and of what was expected.
#![tactic(auto)]

pub mod emitting;
pub mod expected;
pub mod message;
