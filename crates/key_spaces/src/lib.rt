// What stands before and behind the parts of a key: optional whitespace; and the report where the list ends.
#![tactic(auto)]

ghost use Rattle.std.specs.Prelude.{◌≡◌, List, [], ℕ};
ghost use Rattle.token.specs.Tokens.{Good, tokens_at, all_tokens};
ghost use Rattle.rules.specs.Keys.{opt_whitespace};
ghost use Rattle.output.specs.Pour.{bufs, put};
ghost use Rattle.output.specs.Walks.{Goes};
ghost use Rattle.key_spaces.specs.Nothing.{nothing_left};

use backward_search::nearest_before;
use output::emitting::{Counts, Walk, emit, report};
use rules::event::Event;
use token::cursor::{Cursor, Sought};
use token::kind::Kind;
use token::span::Span;

pub fn opt_whitespace(
    s: &[u8],
    c: Cursor,
    m: Counts,
    events: &mut [u32],
    errors: &mut [u32],
) -> Walk
    requires { Good s.now c }
    ensures { Goes s.now (opt_whitespace (tokens_at s.now c)) c (bufs events.old errors.old m) events.new errors.new result }
{
    let Some((t, past)) = c.next_token_if(s, Kind::Whitespace) else {
        return Walk { cur: c, n: m };
    };
    let n = emit(events, m, Event::Whitespace, t.start, t.end);
    Walk { cur: past, n }
}

// The report where the list ends before what is expected: the token before is to blame.
pub fn nothing_left(
    s: &[u8],
    c: Cursor,
    m: Counts,
    message: u32,
    expected: u32,
    errors: &mut [u32],
) -> Counts
    requires good { Good s.now c }
    requires c_value { tokens_at s.now c ≡ [] }
    ensures { (base : ℕ) (events : List ℕ) → c.base ≡ base → bufs events errors.new result ≡ put (all_tokens s.now base) (nothing_left message expected) (bufs events errors.old m) }
{
    let last = nearest_before(c, s, Sought::Significant, Span { start: 0, end: 0 }, 0);
    report(
        errors, m, message, expected, last.start, last.end, last.end, last.end,
    )
}
