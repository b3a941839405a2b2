// What the kinds of token are to keys.
ghost use Rattle.std.specs.Prelude.{◌≡◌};
ghost use Rattle.rules.specs.Keys.{in_key};

use rules::event::Encoding;
use rules::keys::InKey;
use token::kind::Kind;

pub fn in_key(kind: Kind) -> InKey
    ensures { result ≡ in_key kind }
{
    match kind {
        Kind::Dot => InKey::Dot,
        Kind::Whitespace => InKey::Whitespace,
        Kind::LiteralString => InKey::Part(Encoding::LiteralString),
        Kind::BasicString => InKey::Part(Encoding::BasicString),
        Kind::MlLiteralString => InKey::Part(Encoding::MlLiteralString),
        Kind::MlBasicString => InKey::Part(Encoding::MlBasicString),
        Kind::Atom => InKey::Part(Encoding::None),
        _ => InKey::Other,
    }
}
