// The classes of kinds that keys go by.
use crate::event::Encoding;

// What a kind is to a key.
#[derive(Clone, Copy)]
pub enum InKey {
    Part(Encoding),
    Whitespace,
    Dot,
    Other,
}
