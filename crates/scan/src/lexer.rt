// What the lexer finds at a place.
use token::kind::Kind;

// The kind of a token, and where it ends.
#[derive(Clone, Copy)]
pub struct Found {
    pub end: usize,
    pub kind: Kind,
}
