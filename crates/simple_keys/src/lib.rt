// A simple key: one part.
#![tactic(auto)]

ghost use Rattle.token.specs.Tokens.{Good, tokens_at};
ghost use Rattle.rules.specs.Keys.{simple_key};
ghost use Rattle.output.specs.Pour.{bufs};
ghost use Rattle.output.specs.Walks.{Goes};

use classes::keys::in_key;
use key_spaces::nothing_left;
use output::emitting::{Counts, Walk};
use output::expected::A_KEY;
use rules::keys::InKey;
use simple_parts::{on_missing_key, simple_part};
use token::cursor::Cursor;

pub fn simple_key(
    s: &[u8],
    c: Cursor,
    m: Counts,
    message: u32,
    events: &mut [u32],
    errors: &mut [u32],
) -> Walk
    requires { Good s.now c }
    ensures { Goes s.now (simple_key message (tokens_at s.now c)) c (bufs events.old errors.old m) events.new errors.new result }
{
    let Some((t, past)) = c.next(s) else {
        let n = nothing_left(s, c, m, message, A_KEY, errors);
        return Walk { cur: c, n };
    };
    match in_key(t.kind) {
        InKey::Part(e) => simple_part(s, t, e, past, m, message, events, errors),
        _ => on_missing_key(s, t, past, m, message, events, errors),
    }
}
