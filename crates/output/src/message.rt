// The messages of error reports, by the numbers of docs/LAYOUT.md. They are numbers and no enum, since each is a word of the buffer that C lends and reads.
pub const UNCLOSED_ARRAY_TABLE: u32 = 1;

pub const UNCLOSED_TABLE: u32 = 2;

pub const INVALID_TABLE: u32 = 3;

pub const INVALID_KEY: u32 = 4;

pub const KEY_WITH_NO_VALUE: u32 = 5;

pub const MISSING_VALUE_FOR_KEY: u32 = 6;

pub const UNCLOSED_ARRAY: u32 = 7;

pub const EXTRA_COMMA_IN_ARRAY: u32 = 8;

pub const UNEXPECTED_EQUALS_IN_ARRAY: u32 = 9;

pub const MISSING_COMMA_IN_ARRAY: u32 = 10;

pub const MISSING_INLINE_TABLE_OPENING: u32 = 11;

pub const COMMENT_IN_INLINE_TABLE: u32 = 12;

pub const NEWLINE_IN_INLINE_TABLE: u32 = 13;

pub const UNCLOSED_INLINE_TABLE: u32 = 14;

pub const EXTRA_COMMA_IN_INLINE_TABLE: u32 = 15;

pub const EXTRA_ASSIGNMENT: u32 = 16;

pub const MISSING_KEY_IN_INLINE_TABLE: u32 = 17;

pub const MISSING_ASSIGNMENT: u32 = 18;

pub const TRAILING_COMMA: u32 = 19;

pub const INVALID_INLINE_TABLE_ELEMENT: u32 = 20;

pub const MISSING_ARRAY_OPENING: u32 = 21;

pub const MISSING_COMMA_IN_INLINE_TABLE: u32 = 22;

pub const UNEXPECTED_KEY_OR_VALUE: u32 = 23;

pub const CONTENT_AFTER_COMMENT: u32 = 24;

pub const UNEXPECTED_CONTENT: u32 = 25;

pub const INVALID_KEY_VALUE_PAIR: u32 = 26;

pub const MISSING_TABLE_OPEN: u32 = 27;

pub const MISSING_VALUE: u32 = 28;

pub const EXTRA_EQUALS: u32 = 29;
