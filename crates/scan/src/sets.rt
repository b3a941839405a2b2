// Where a token ends that goes on while its bytes are of a set: whitespace, a comment, an atom; and a newline.
ghost use Rattle.std.specs.Prelude.{◌≡◌, ◌≤◌, length};
ghost use Rattle.places.specs.Places.{Scanned};
ghost use Rattle.scan.specs.Lexer.{ends_whitespace, ends_comment, ends_atom, lex_whitespace, lex_comment, lex_crlf, lex_atom};

use places::plain::{NUL, past_plain_if_first};
use places::{is_at, until};

// The sets go by the byte itself. Where records are written, whitespace and atoms go by a table (codes.rt).
fn ends_whitespace(b: u8) -> bool
    ensures { result ≡ ends_whitespace b }
{
    !matches!(b, b' ' | b'\t')
}

fn ends_comment(b: u8) -> bool
    ensures { result ≡ ends_comment b }
{
    matches!(b, b'\r' | b'\n')
}

// By arms and not by one pattern: tab and LF are neighbours there, and the proof did not close over the range that they become.
fn ends_atom(b: u8) -> bool
    ensures { result ≡ ends_atom b }
{
    match b {
        b'.' | b'=' | b',' | b'[' | b']' | b'{' | b'}' => true,
        b' ' | b'\t' => true,
        b'#' | b'\r' | b'\n' => true,
        _ => false,
    }
}

// `at` is behind the first byte of the token, here and in the functions below.
pub fn lex_whitespace(text: &[u8], at: usize) -> usize
    requires { at ≤ length text.now }
    ensures { Scanned lex_whitespace text.now at result }
{
    until(text, at, ends_whitespace)
}

pub fn lex_comment(text: &[u8], at: usize) -> usize
    requires { at ≤ length text.now }
    ensures { Scanned lex_comment text.now at result }
{
    let rest = past_plain_if_first(text, at, b'\r', b'\n', NUL);
    until(text, rest, ends_comment)
}

pub fn lex_crlf(text: &[u8], at: usize) -> usize
    requires { at ≤ length text.now }
    ensures { Scanned lex_crlf text.now at result }
{
    if is_at(text, at, b'\n') { at + 1 } else { at }
}

pub fn lex_atom(text: &[u8], at: usize) -> usize
    requires { at ≤ length text.now }
    ensures { Scanned lex_atom text.now at result }
{
    until(text, at, ends_atom)
}
