// What the kinds of token are to arrays.
ghost use Rattle.std.specs.Prelude.{◌≡◌};
ghost use Rattle.rules.specs.Array.{in_array};

use rules::array::InArray;
use token::kind::Kind;

pub fn in_array(kind: Kind) -> InArray
    ensures { result ≡ in_array kind }
{
    match kind {
        Kind::Equals => InArray::Equals,
        Kind::Comma => InArray::Comma,
        Kind::LeftSquareBracket => InArray::OpenSquare,
        Kind::RightSquareBracket => InArray::CloseSquare,
        Kind::LeftCurlyBracket => InArray::OpenCurly,
        Kind::RightCurlyBracket => InArray::CloseCurly,
        Kind::Whitespace => InArray::Whitespace,
        Kind::Comment => InArray::Comment,
        Kind::Newline => InArray::Newline,
        Kind::Eof => InArray::Eof,
        _ => InArray::Scalar,
    }
}
