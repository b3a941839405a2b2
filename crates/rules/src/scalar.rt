// The classes of kinds that scalars go by.
use crate::event::Encoding;

// What a kind is to the start of a scalar.
#[derive(Clone, Copy)]
pub enum Starting {
    Quoted(Encoding),
    Unquoted,
    Never,
}

// What a kind is to an unquoted scalar that was begun.
#[derive(Clone, Copy)]
pub enum InScalar {
    Dot,
    Atom,
    Whitespace,
    Other,
}
