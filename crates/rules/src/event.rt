// The events, and how a key or a scalar is written.
#[derive(Clone, Copy)]
pub enum Encoding {
    None,
    LiteralString,
    BasicString,
    MlLiteralString,
    MlBasicString,
}

#[derive(Clone, Copy)]
pub enum Event {
    StdTableOpen,
    StdTableClose,
    ArrayTableOpen,
    ArrayTableClose,
    SimpleKey(Encoding),
    KeySep,
    KeyValSep,
    Scalar(Encoding),
    ValueSep,
    ArrayOpen,
    ArrayClose,
    InlineTableOpen,
    InlineTableClose,
    Whitespace,
    Comment,
    Newline,
    Error,
}
