// Where a literal string ends.
ghost use Rattle.std.specs.Prelude.{◌≤◌, length};
ghost use Rattle.places.specs.Places.{Scanned};
ghost use Rattle.scan.specs.Lexer.{lex_literal_string, lex_ml_literal_string};

use crate::quotes::{starts_three, up_to_two};
use places::plain::{DEL, NUL, past_plain, past_plain_if_first};

pub fn lex_literal_string(text: &[u8], at: usize) -> usize
    requires { at ≤ length text.now }
    ensures { Scanned lex_literal_string text.now at result }
{
    // A `for` takes two instructions more for each string, and `until` seven: 2 and 6 of a hundred where strings are short.
    let mut i = past_plain(text, at, b'\'', b'\n', NUL);
    while i < text.len() {
        match text[i] {
            b'\'' => return i + 1,
            b'\n' => return i,
            _ => i += 1,
        }
    }
    i
}

pub fn lex_ml_literal_string(text: &[u8], at: usize) -> usize
    requires { at ≤ length text.now }
    ensures { Scanned lex_ml_literal_string text.now at result }
{
    for i in past_plain_if_first(text, at, b'\'', NUL, DEL)..text.len() {
        if starts_three(text, i, b'\'') {
            return up_to_two(text, i + 3, b'\'');
        }
    }
    text.len()
}
