// The classes of kinds at the start of an expression.
use crate::event::Encoding;

// What a kind is to the start of an expression.
#[derive(Clone, Copy)]
pub enum InDocument {
    OpenSquare,
    CloseSquare,
    Key(Encoding),
    Equals,
    Dot,
    Stray,
    Whitespace,
    Newline,
    Comment,
    Eof,
}
