// The sixteen kinds of token, their numbers, and the classes of a search backward.
ghost use Rattle.std.specs.Prelude.{◌≡◌};
ghost use Rattle.token.specs.Kinds.{kind_of, number_of};

#[derive(Clone, Copy, PartialEq, Eq)]
pub enum Kind {
    Dot = 1,
    Equals,
    Comma,
    LeftSquareBracket,
    RightSquareBracket,
    LeftCurlyBracket,
    RightCurlyBracket,
    Whitespace,
    Comment,
    Newline,
    LiteralString,
    BasicString,
    MlLiteralString,
    MlBasicString,
    Atom,
    Eof,
}

// What a kind is to a search backward.
#[derive(Clone, Copy)]
pub enum InSearch {
    Whitespace,
    Trivia,
    Comma,
    Other,
}

// The kind of a number; one that names no kind is refused by the check of a list, and read as Eof here.
pub fn kind_of(number: u32) -> Kind
    ensures { result ≡ kind_of number }
{
    match number {
        1 => Kind::Dot,
        2 => Kind::Equals,
        3 => Kind::Comma,
        4 => Kind::LeftSquareBracket,
        5 => Kind::RightSquareBracket,
        6 => Kind::LeftCurlyBracket,
        7 => Kind::RightCurlyBracket,
        8 => Kind::Whitespace,
        9 => Kind::Comment,
        10 => Kind::Newline,
        11 => Kind::LiteralString,
        12 => Kind::BasicString,
        13 => Kind::MlLiteralString,
        14 => Kind::MlBasicString,
        15 => Kind::Atom,
        _ => Kind::Eof,
    }
}

// The number of a kind.
pub fn number_of(kind: Kind) -> usize
    ensures { result ≡ number_of kind }
{
    kind as usize
}
