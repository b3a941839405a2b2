// What the kinds of token are to the skipping of lines and of values.
ghost use Rattle.std.specs.Prelude.{◌≡◌};
ghost use Rattle.rules.specs.Skipping.{in_line, in_close};

use rules::skipping::{InClose, InLine};
use token::kind::Kind;

pub fn in_line(kind: Kind) -> InLine
    ensures { result ≡ in_line kind }
{
    match kind {
        Kind::Whitespace => InLine::Whitespace,
        Kind::Comment => InLine::Comment,
        Kind::Newline => InLine::Newline,
        Kind::Eof => InLine::Eof,
        _ => InLine::Other,
    }
}

pub fn in_close(kind: Kind) -> InClose
    ensures { result ≡ in_close kind }
{
    match kind {
        Kind::LeftSquareBracket => InClose::OpenSquare,
        Kind::RightSquareBracket => InClose::CloseSquare,
        Kind::LeftCurlyBracket => InClose::OpenCurly,
        Kind::RightCurlyBracket => InClose::CloseCurly,
        Kind::Whitespace => InClose::Whitespace,
        Kind::Comment => InClose::Comment,
        Kind::Newline => InClose::Newline,
        Kind::Eof => InClose::Eof,
        _ => InClose::Other,
    }
}
