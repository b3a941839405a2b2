// Messages for what document.rs says nothing about, and what is expected there.
ghost use Rattle.std.specs.Prelude.{◌≡◌};
ghost use Rattle.pieces.specs.Messages.{missing, expected_by};

use event_kinds::{ARRAY_CLOSE, INLINE_TABLE_CLOSE, SCALAR, SIMPLE_KEY};

pub const KEY_MISSING: u32 = 101;

pub const VALUE_MISSING: u32 = 102;

pub const TEXT_SKIPPED: u32 = 103;

pub const MULTI_LINE_STRING: u32 = 104;

pub const BRACKET_NOT_CLOSED: u32 = 105;

pub const SOMETHING_MISSING: u32 = 106;

// What may be expected, by the numbers of document 01: nothing in particular, a key, a value, a key part that is no multi-line string.
const NOTHING: u32 = 1;

const KEY: u32 = 4;

const VALUE: u32 = 6;

const SINGLE_LINE_KEY: u32 = 14;

// The message for an event of this kind that has an empty span.
pub fn missing(kind: u32) -> u32
    ensures { result ≡ missing kind }
{
    match kind {
        SIMPLE_KEY => KEY_MISSING,
        SCALAR => VALUE_MISSING,
        ARRAY_CLOSE | INLINE_TABLE_CLOSE => BRACKET_NOT_CLOSED,
        _ => SOMETHING_MISSING,
    }
}

// What is expected where this message is given.
pub fn expected_by(message: u32) -> u32
    ensures { result ≡ expected_by message }
{
    match message {
        KEY_MISSING => KEY,
        VALUE_MISSING => VALUE,
        MULTI_LINE_STRING => SINGLE_LINE_KEY,
        _ => NOTHING,
    }
}
