// Dots and the parts of a key behind them.
ghost use Rattle.token.specs.Tokens.{Good, tokens_at};
ghost use Rattle.rules.specs.Keys.{opt_dot_keys, opt_dot_keys_valid, dot_keys, dot_keys_valid};
ghost use Rattle.output.specs.Pour.{bufs};
ghost use Rattle.key_dots.specs.KeyWalks.{Keyed};

use classes::keys::in_key;
use key_spaces::opt_whitespace;
use output::emitting::{Counts, emit, empty_key};
use rules::event::Event;
use rules::keys::InKey;
use token::cursor::Cursor;
use token::kind::Kind;

// Where the walk over a key ended, the counts there, and whether the key was valid.
#[derive(Clone, Copy)]
pub struct KeyWalk {
    pub cur: Cursor,
    pub n: Counts,
    pub valid: bool,
}

// Optional whitespace, then dots and the parts behind them, if there is a dot.
pub fn opt_dot_keys(
    s: &[u8],
    c: Cursor,
    m: Counts,
    events: &mut [u32],
    errors: &mut [u32],
) -> KeyWalk
    requires { Good s.now c }
    ensures { Keyed s.now (opt_dot_keys (tokens_at s.now c)) (opt_dot_keys_valid (tokens_at s.now c)) c (bufs events.old errors.old m) events.new errors.new result }
{
    let w = opt_whitespace(s, c, m, events, errors);
    let cur = w.cur;
    let n = w.n;
    let Some(_) = cur.next_token_if(s, Kind::Dot) else {
        return KeyWalk {
            cur,
            n,
            valid: true,
        };
    };
    let list = s;
    let from = cur;
    let sofar = n;
    dot_keys(list, from, sofar, events, errors)
}

// Dots, and the parts behind them. The scan after a dot is left from within: a part goes on with the next dot, a token that can
// start no part ends the key.
pub fn dot_keys(s: &[u8], c: Cursor, m: Counts, events: &mut [u32], errors: &mut [u32]) -> KeyWalk
    requires { Good s.now c }
    ensures { Keyed s.now (dot_keys (tokens_at s.now c)) (dot_keys_valid (tokens_at s.now c)) c (bufs events.old errors.old m) events.new errors.new result }
{
    let mut cur = c;
    let mut n = m;
    let mut valid = true;
    'dots: loop {
        let Some((d, next)) = cur.next_token_if(s, Kind::Dot) else {
            break 'dots;
        };
        cur = next;
        n = emit(events, n, Event::KeySep, d.start, d.end);
        'parts: loop {
            let Some((t, past)) = cur.next(s) else {
                break 'parts;
            };
            match in_key(t.kind) {
                InKey::Other => {
                    n = empty_key(events, n, t.start);
                    cur = past.back(s);
                    valid = false;
                    break 'dots;
                }
                InKey::Whitespace => {
                    n = emit(events, n, Event::Whitespace, t.start, t.end);
                    cur = past;
                }
                InKey::Dot => {
                    n = empty_key(events, n, t.start);
                    n = emit(events, n, Event::KeySep, t.start, t.end);
                    cur = past;
                }
                InKey::Part(e) => {
                    n = emit(events, n, Event::SimpleKey(e), t.start, t.end);
                    let v = opt_whitespace(s, past, n, events, errors);
                    cur = v.cur;
                    n = v.n;
                    continue 'dots;
                }
            }
        }
        n = empty_key(events, n, d.end);
    }
    KeyWalk { cur, n, valid }
}
