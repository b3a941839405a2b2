// The classes of bytes that a token starts with.

#[derive(Clone, Copy)]
pub enum Start {
    Dot,
    Equals,
    Comma,
    LeftSquareBracket,
    RightSquareBracket,
    LeftCurlyBracket,
    RightCurlyBracket,
    Wschar,
    CommentStartSymbol,
    CarriageReturn,
    LineFeed,
    Apostrophe,
    QuotationMark,
    Other,
}
