// What an error report says was expected, by the numbers of docs/LAYOUT.md. They are numbers and no enum, since each is a word of the buffer that C lends and reads.
pub const NOTHING: u32 = 1;

pub const CLOSE_SQUARE: u32 = 2;

pub const CLOSE_SQUARES: u32 = 3;

pub const A_KEY: u32 = 4;

pub const EQUALS: u32 = 5;

pub const A_VALUE: u32 = 6;

pub const VALUE_OR_CLOSE_SQUARE: u32 = 7;

pub const COMMA: u32 = 8;

pub const OPEN_CURLY: u32 = 9;

pub const CLOSE_CURLY: u32 = 10;

pub const NEWLINE_OR_COMMENT: u32 = 11;

pub const A_NEWLINE: u32 = 12;

pub const OPEN_SQUARE: u32 = 13;

pub const KEY_STRINGS: u32 = 14;
