// What the kinds of token are to scalars.
ghost use Rattle.std.specs.Prelude.{◌≡◌};
ghost use Rattle.rules.specs.Scalar.{starting_of, in_scalar};

use rules::event::Encoding;
use rules::scalar::{InScalar, Starting};
use token::kind::Kind;

pub fn starting_of(kind: Kind) -> Starting
    ensures { result ≡ starting_of kind }
{
    match kind {
        Kind::Dot | Kind::Atom => Starting::Unquoted,
        Kind::LiteralString => Starting::Quoted(Encoding::LiteralString),
        Kind::BasicString => Starting::Quoted(Encoding::BasicString),
        Kind::MlLiteralString => Starting::Quoted(Encoding::MlLiteralString),
        Kind::MlBasicString => Starting::Quoted(Encoding::MlBasicString),
        _ => Starting::Never,
    }
}

pub fn in_scalar(kind: Kind) -> InScalar
    ensures { result ≡ in_scalar kind }
{
    match kind {
        Kind::Dot => InScalar::Dot,
        Kind::Whitespace => InScalar::Whitespace,
        Kind::Atom => InScalar::Atom,
        _ => InScalar::Other,
    }
}
