// From the bytes of a text to its token records.
#![tactic(auto)]

pub mod theorems;

ghost use Rattle.std.specs.Prelude.{◌≡◌, cond, true, ◌++◌, ◌+◌, ◌*◌, ◌/◌, ◌≤◌, length, drop, ltb};
ghost use Rattle.token.specs.Kinds.{number_of};
ghost use Rattle.token.specs.Refusals.{refusal_number};
ghost use Rattle.token.specs.Writing.{records_of, put_at};
ghost use Rattle.scan.specs.Lexer.{tokens_from, base_of};
ghost use Rattle.lex.specs.Lexed.{LexOutcome, lex_outcome};

use one_token::lexer::process_token;
use text_records::write;
use token::checked::MAX_END;
use token::refusal::Refusal;
use utf8::valid_up_to;

// A refusal's number or 0, and its place; where the tokens start; and how many records they are, or would be. The number is what C gets, and
// what `lex_outcome` speaks of.
#[derive(Clone, Copy)]
pub struct Lexed {
    pub refusal: u32,
    pub place: usize,
    pub base: u32,
    pub records: usize,
}

// Where the tokens start: behind a byte order mark.
fn base_of(text: &[u8]) -> usize
    ensures { result ≡ base_of text.now }
{
    if text.starts_with(&[239, 187, 191]) {
        3
    } else {
        0
    }
}

// How many tokens there are from `base` on. A turn goes on to the end of its token.
fn count(text: &[u8], base: usize) -> usize
    requires { base ≤ length text.now }
    ensures { result ≡ length (tokens_from text.now base) }
{
    let mut at = base;
    let mut n = 0;
    while at < text.len() {
        let found = process_token(text, at);
        at = found.end;
        n += 1;
    }
    n + 1
}

// How many tokens there are from `base` on, if that is more than there is room for; else 0. There are at most one more than bytes.
fn beyond_room(text: &[u8], base: usize, room: usize) -> usize
    requires { base ≤ length text.now }
    ensures { result ≡ cond (ltb room (length (tokens_from text.now base))) (length (tokens_from text.now base)) 0 }
{
    if text.len() < room {
        return 0;
    }
    let n = count(text, base);
    if room < n {
        return n;
    }
    0
}

fn refuse(refusal: Refusal, place: usize, records: usize) -> Lexed
    ensures { result ≡ record { refusal = refusal_number refusal; place = place; base = 0; records = records } }
{
    Lexed {
        refusal: refusal.number(),
        place,
        base: 0,
        records,
    }
}

// Any bytes may be given, and any buffer.
pub fn lex(text: &[u8], records: &mut [u8]) -> Lexed
    ensures { ◌≡◌ {A = LexOutcome} (record { answer = result; buffer = records.new }) (lex_outcome text.now records.old) }
{
    if MAX_END < text.len() {
        return refuse(Refusal::TextTooLong, MAX_END, 0);
    }
    let valid = valid_up_to(text);
    if valid < text.len() {
        return refuse(Refusal::NotUtf8, valid, 0);
    }
    let base = base_of(text);
    let beyond = beyond_room(text, base, records.len() / 6);
    if 0 < beyond {
        return refuse(Refusal::Tokens, 0, beyond);
    }
    let n = write(text, base, records);
    Lexed {
        refusal: 0,
        place: 0,
        base: base as u32,
        records: n,
    }
}
