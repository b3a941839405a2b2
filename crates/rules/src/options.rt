// What a caller chooses of a run, and what a walk is told.

// Where the report of a trailing comma looks for its comma: in the whole list before the `}`, as the Rust does, or only behind the `{` of its own table.
#[derive(Clone, Copy)]
pub enum Mode {
    Crate,
    Brace,
}

#[derive(Clone, Copy)]
pub struct Options {
    pub mode: Mode,
}

// How many arrays and inline tables may still be opened in one another, and what the caller chose. Every walk that can come to a value hands it on.
#[derive(Clone, Copy)]
pub struct Settings {
    pub levels: u32,
    pub options: Options,
}
