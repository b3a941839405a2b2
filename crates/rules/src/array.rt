// The classes of kinds that arrays go by, and an array's state.
// What an array wants next.
#[derive(Clone, Copy)]
pub enum ArrayState {
    NeedsValue,
    NeedsComma,
}

// What a kind is to an array.
#[derive(Clone, Copy)]
pub enum InArray {
    Whitespace,
    Comment,
    Newline,
    Eof,
    Comma,
    Equals,
    OpenCurly,
    CloseCurly,
    OpenSquare,
    CloseSquare,
    Scalar,
}
