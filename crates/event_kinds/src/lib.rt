// The numbers of the events that are looked for among the words of a run, as the rules number them: word 0 of an event. And of its encodings, word 1,
// those of multi-line strings.
#![tactic(auto)]

pub const STD_TABLE_OPEN: u32 = 1;

pub const STD_TABLE_CLOSE: u32 = 2;

pub const ARRAY_TABLE_OPEN: u32 = 3;

pub const ARRAY_TABLE_CLOSE: u32 = 4;

pub const SIMPLE_KEY: u32 = 5;

pub const SCALAR: u32 = 8;

pub const ARRAY_CLOSE: u32 = 11;

pub const INLINE_TABLE_CLOSE: u32 = 13;

pub const WHITESPACE: u32 = 14;

pub const ERROR: u32 = 17;

pub const ML_LITERAL_STRING: u32 = 3;

pub const ML_BASIC_STRING: u32 = 4;
