// The classes of kinds that the skipping of lines and of values goes by, and its counts.
#[derive(Clone, Copy)]
pub enum Bracket {
    Square,
    Curly,
}

// How many arrays and inline tables were opened while a value is skipped.
#[derive(Clone, Copy)]
pub struct Opened {
    pub arrays: usize,
    pub tables: usize,
}

// What a kind is to a line that is skipped or ended.
#[derive(Clone, Copy)]
pub enum InLine {
    Whitespace,
    Comment,
    Newline,
    Eof,
    Other,
}

// What a kind is to a value that is skipped up to its closing bracket.
#[derive(Clone, Copy)]
pub enum InClose {
    Whitespace,
    Comment,
    Newline,
    Eof,
    OpenSquare,
    CloseSquare,
    OpenCurly,
    CloseCurly,
    Other,
}
