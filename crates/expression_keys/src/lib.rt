// The first part of an expression's key.
#![tactic(auto)]

ghost use Rattle.std.specs.Prelude.{◌≡◌, List, ℕ};
ghost use Rattle.token.specs.Tokens.{Tok, Good, Back};
ghost use Rattle.rules.specs.Messages as messages;
ghost use Rattle.rules.specs.Receiver as receiver;
ghost use Rattle.output.specs.Pour.{bufs, put};
ghost use Rattle.key_dots.specs.KeyWalks.{ReadDot};

use output::emitting::{Counts, emit, empty_key};
use output::message::{KEY_WITH_NO_VALUE, MISSING_VALUE_FOR_KEY};
use rules::event::{Encoding, Event};
use token::cursor::{Cursor, Token};

// What is known when the first part of a key was emitted: where the walk of the rest starts, the counts, and what is said if no `=`
// follows. The walk itself is `key_and_value` of crate expressions.
#[derive(Clone, Copy)]
pub struct KeyStart {
    pub cur: Cursor,
    pub n: Counts,
    pub message: u32,
}

// The first part of the key is the token t.
pub fn on_expression_key(
    t: Token,
    encoding: Encoding,
    c: Cursor,
    m: Counts,
    events: &mut [u32],
) -> KeyStart
    ensures { (result.cur ≡ c) × (result.message ≡ messages.key_with_no_value) × ((all : List Tok) (errors : List ℕ) → bufs events.new errors result.n ≡ put all (receiver.simple_key encoding t.start t.end) (bufs events.old errors m)) }
{
    let n = emit(events, m, Event::SimpleKey(encoding), t.start, t.end);
    KeyStart {
        cur: c,
        n,
        message: KEY_WITH_NO_VALUE,
    }
}

// The key begins with the dot that was read before c: its first part is empty, and the dot is read again.
pub fn on_expression_dot(s: &[u8], t: Token, c: Cursor, m: Counts, events: &mut [u32]) -> KeyStart
    requires good { Good s.now c }
    requires read_dot { ReadDot s.now t c }
    ensures { Back s.now c result.cur × (result.message ≡ messages.missing_value_for_key) × ((all : List Tok) (errors : List ℕ) → bufs events.new errors result.n ≡ put all (receiver.simple_key Encoding.None t.start t.start) (bufs events.old errors m)) }
{
    let n = empty_key(events, m, t.start);
    let back = c.back(s);
    KeyStart {
        cur: back,
        n,
        message: MISSING_VALUE_FOR_KEY,
    }
}
