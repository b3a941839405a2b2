// The keys of an inline table.
#![tactic(auto)]

ghost use Rattle.std.specs.Prelude.{◌∷◌, ◌-◌};
ghost use Rattle.token.specs.Tokens.{tok, Good, tokens_at};
ghost use Rattle.rules.specs.Out.{◌▹◌};
ghost use Rattle.rules.specs.Keys.{opt_dot_keys};
ghost use Rattle.output.specs.Pour.{bufs};
ghost use Rattle.output.specs.Walks.{Goes};
ghost use Rattle.key_dots.specs.KeyWalks.{ReadDot};
ghost use Rattle.table_keys.specs.Parts.{key_item, empty_key};

use inline_actions::encoding_at;
use key_dots::dots::opt_dot_keys;
use output::emitting::{Counts, Walk, emit, empty_key};
use rules::event::Event;
use token::cursor::{Cursor, Token};

// The key that begins with t.
pub fn table_key(
    s: &[u8],
    t: Token,
    c: Cursor,
    m: Counts,
    events: &mut [u32],
    errors: &mut [u32],
) -> Walk
    requires { Good s.now c }
    ensures { Goes s.now (key_item t.kind t.start t.end ▹ opt_dot_keys (tokens_at s.now c)) c (bufs events.old errors.old m) events.new errors.new result }
{
    let k = t.kind;
    let e = encoding_at(k);
    let n = emit(events, m, Event::SimpleKey(e), t.start, t.end);
    let w = opt_dot_keys(s, c, n, events, errors);
    let cur = w.cur;
    let end = w.n;
    Walk { cur, n: end }
}

// The key that begins with the dot t, which was read just before c: its first part is empty.
pub fn table_dot(
    s: &[u8],
    t: Token,
    c: Cursor,
    m: Counts,
    events: &mut [u32],
    errors: &mut [u32],
) -> Walk
    requires good { Good s.now c }
    requires read_dot { ReadDot s.now t c }
    ensures { Goes s.now (empty_key t.start ▹ opt_dot_keys (tok t.kind t.start t.end ∷ tokens_at s.now c)) c (bufs events.old errors.old m) events.new errors.new result }
{
    let n = empty_key(events, m, t.start);
    let back = c.back(s);
    let w = opt_dot_keys(s, back, n, events, errors);
    let cur = w.cur;
    let end = w.n;
    Walk { cur, n: end }
}
