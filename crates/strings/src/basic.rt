// Where a basic string ends.
ghost use Rattle.std.specs.Prelude.{◌≡◌, false, ◌≤◌, length, drop};
ghost use Rattle.places.specs.Places.{Scanned, peeks};
ghost use Rattle.scan.specs.Lexer.{escapable, taken, lex_basic_string, lex_ml_basic_string};

use crate::quotes::{starts_three, up_to_two};
use places::plain::{NUL, past_plain, past_plain_if_first};

// Whether an escape takes what stands at `at` with it.
#[tactic(auto, using(places::specs::PlaceLaws::peeks_here, places::specs::PlaceLaws::peeks_out), unfolding(scan::specs::Lexer::escapable))]
fn escapable_at(text: &[u8], at: usize) -> bool
    ensures { result ≡ peeks escapable (drop at text.now) }
{
    at < text.len() && matches!(text[at], b'\\' | b'"')
}

// Behind the byte b, which ends at `at`: an escape takes the next byte with it, if that is one of two.
#[tactic(auto, using(places::specs::PlaceLaws::peeks_within))]
fn behind(text: &[u8], b: u8, at: usize) -> usize
    requires { at ≤ length text.now }
    ensures { Scanned (λ bs. taken b bs) text.now at result }
{
    if b == b'\\' && escapable_at(text, at) {
        at + 1
    } else {
        at
    }
}

// An escape takes a byte with it, so a turn goes on by one byte or two, here and in the function below.
pub fn lex_basic_string(text: &[u8], at: usize) -> usize
    requires { at ≤ length text.now }
    ensures { Scanned (λ bs. lex_basic_string false bs) text.now at result }
{
    let mut i = past_plain(text, at, b'"', b'\\', b'\n');
    while i < text.len() {
        match text[i] {
            b'"' => return i + 1,
            b'\n' => return i,
            b => i = behind(text, b, i + 1),
        }
    }
    i
}

pub fn lex_ml_basic_string(text: &[u8], at: usize) -> usize
    requires { at ≤ length text.now }
    ensures { Scanned (λ bs. lex_ml_basic_string false bs) text.now at result }
{
    let mut i = past_plain_if_first(text, at, b'"', b'\\', NUL);
    while i < text.len() {
        if starts_three(text, i, b'"') {
            return up_to_two(text, i + 3, b'"');
        }
        i = behind(text, text[i], i + 1);
    }
    i
}
