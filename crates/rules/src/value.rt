// The classes of kinds where a value is wanted.
// What a kind is to a value that is wanted.
#[derive(Clone, Copy)]
pub enum InValue {
    Nothing,
    Equals,
    OpenCurly,
    CloseCurly,
    OpenSquare,
    CloseSquare,
    Scalar,
}
