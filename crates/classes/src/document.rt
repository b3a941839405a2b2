// What the kinds of token are at the start of an expression.
ghost use Rattle.std.specs.Prelude.{◌≡◌};
ghost use Rattle.rules.specs.Document.{in_document};

use rules::document::InDocument;
use rules::event::Encoding;
use token::kind::Kind;

pub fn in_document(kind: Kind) -> InDocument
    ensures { result ≡ in_document kind }
{
    match kind {
        Kind::Dot => InDocument::Dot,
        Kind::Equals => InDocument::Equals,
        Kind::Comma | Kind::LeftCurlyBracket | Kind::RightCurlyBracket => InDocument::Stray,
        Kind::LeftSquareBracket => InDocument::OpenSquare,
        Kind::RightSquareBracket => InDocument::CloseSquare,
        Kind::Whitespace => InDocument::Whitespace,
        Kind::Comment => InDocument::Comment,
        Kind::Newline => InDocument::Newline,
        Kind::LiteralString => InDocument::Key(Encoding::LiteralString),
        Kind::BasicString => InDocument::Key(Encoding::BasicString),
        Kind::MlLiteralString => InDocument::Key(Encoding::MlLiteralString),
        Kind::MlBasicString => InDocument::Key(Encoding::MlBasicString),
        Kind::Atom => InDocument::Key(Encoding::None),
        Kind::Eof => InDocument::Eof,
    }
}
