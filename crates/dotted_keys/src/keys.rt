// Keys: a key with its dots.
ghost use Rattle.token.specs.Tokens.{Good, tokens_at};
ghost use Rattle.rules.specs.Keys.{key, key_valid};
ghost use Rattle.output.specs.Pour.{bufs};
ghost use Rattle.key_dots.specs.KeyWalks.{Keyed};

use classes::keys::in_key;
use key_dots::dots::{KeyWalk, opt_dot_keys};
use key_spaces::nothing_left;
use output::emitting::{Counts, emit, empty_key};
use output::expected::A_KEY;
use rules::event::Event;
use rules::keys::InKey;
use token::cursor::Cursor;

pub fn key(
    s: &[u8],
    c: Cursor,
    m: Counts,
    message: u32,
    events: &mut [u32],
    errors: &mut [u32],
) -> KeyWalk
    requires { Good s.now c }
    ensures { Keyed s.now (key message (tokens_at s.now c)) (key_valid (tokens_at s.now c)) c (bufs events.old errors.old m) events.new errors.new result }
{
    let mut cur = c;
    let mut n = m;
    while let Some((t, past)) = cur.next(s) {
        match in_key(t.kind) {
            InKey::Other => {
                n = empty_key(events, n, t.start);
                return KeyWalk {
                    cur: past.back(s),
                    n,
                    valid: false,
                };
            }
            InKey::Whitespace => {
                n = emit(events, n, Event::Whitespace, t.start, t.end);
                cur = past;
            }
            InKey::Dot => {
                n = empty_key(events, n, t.start);
                n = emit(events, n, Event::KeySep, t.start, t.end);
                cur = past;
            }
            InKey::Part(e) => {
                n = emit(events, n, Event::SimpleKey(e), t.start, t.end);
                return opt_dot_keys(s, past, n, events, errors);
            }
        }
    }
    n = nothing_left(s, cur, n, message, A_KEY, errors);
    KeyWalk {
        cur,
        n,
        valid: false,
    }
}
