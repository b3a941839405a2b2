// What the kinds of token are where a value is wanted.
ghost use Rattle.std.specs.Prelude.{◌≡◌};
ghost use Rattle.rules.specs.Value.{in_value};

use rules::value::InValue;
use token::kind::Kind;

pub fn in_value(kind: Kind) -> InValue
    ensures { result ≡ in_value kind }
{
    match kind {
        Kind::Equals => InValue::Equals,
        Kind::LeftSquareBracket => InValue::OpenSquare,
        Kind::RightSquareBracket => InValue::CloseSquare,
        Kind::LeftCurlyBracket => InValue::OpenCurly,
        Kind::RightCurlyBracket => InValue::CloseCurly,
        Kind::Comma | Kind::Whitespace | Kind::Comment | Kind::Newline | Kind::Eof =>
            InValue::Nothing,
        _ => InValue::Scalar,
    }
}
