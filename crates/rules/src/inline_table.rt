// An inline table's state, and the actions of its machine.

// What an inline table wants next.
#[derive(Clone, Copy)]
pub enum State {
    NeedsKey,
    NeedsEquals,
    NeedsValue,
    NeedsComma,
}

// The state, and whether nothing was read yet.
#[derive(Clone, Copy)]
pub struct Progress {
    pub state: State,
    pub empty: bool,
}

// What is done at a token, by the state and the token's kind.
#[derive(Clone, Copy)]
pub enum Action {
    Whitespace,
    Comment,
    Newline,
    Eof,
    ValueSep,
    ExtraComma,
    EmptyKey,
    KeyValSep,
    ExtraAssignment,
    KeylessArray,
    KeylessTable,
    UnassignedArray,
    UnassignedTable,
    UnassignedScalar,
    Array,
    Table,
    Scalar,
    Close,
    InvalidElement,
    ArrayWithoutOpen,
    Key,
    DotKey,
    KeyWithoutComma,
    DotKeyWithoutComma,
}
