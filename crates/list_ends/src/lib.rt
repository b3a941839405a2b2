// The end of the list, and what is left behind an entry's end.
#![tactic(auto)]

ghost use Rattle.token.specs.Tokens.{Good, tokens_at};
ghost use Rattle.rules.specs.Skipping.{leftover, eof};
ghost use Rattle.output.specs.Pour.{bufs};
ghost use Rattle.output.specs.Walks.{Goes};
ghost use Rattle.list_ends.specs.Leftover.{unexpected};

use output::emitting::{Counts, Walk, emit, report_before};
use output::expected::NOTHING;
use output::message::UNEXPECTED_CONTENT;
use rules::event::Event;
use token::cursor::{Cursor, Token};
use token::kind::Kind;

// What is left behind the end: each token but Eof an error event.
fn errors_to_end(s: &[u8], c: Cursor, m: Counts, events: &mut [u32], errors: &mut [u32]) -> Walk
    requires { Good s.now c }
    ensures { Goes s.now (leftover (tokens_at s.now c)) c (bufs events.old errors.old m) events.new errors.new result }
{
    let mut cur = c;
    let mut n = m;
    while let Some((t, past)) = cur.next(s) {
        if t.kind != Kind::Eof {
            n = emit(events, n, Event::Error, t.start, t.end);
        }
        cur = past;
    }
    Walk { cur, n }
}

// Content behind the end: the token t.
fn content(s: &[u8], t: Token, c: Cursor, m: Counts, events: &mut [u32], errors: &mut [u32]) -> Walk
    requires { Good s.now c }
    ensures { Goes s.now (unexpected t.start t.end (tokens_at s.now c)) c (bufs events.old errors.old m) events.new errors.new result }
{
    let i = report_before(errors, m, UNEXPECTED_CONTENT, NOTHING, t, t);
    let n = emit(events, i, Event::Error, t.start, t.end);
    errors_to_end(s, c, n, events, errors)
}

pub fn eof(s: &[u8], c: Cursor, m: Counts, events: &mut [u32], errors: &mut [u32]) -> Walk
    requires { Good s.now c }
    ensures { Goes s.now (eof (tokens_at s.now c)) c (bufs events.old errors.old m) events.new errors.new result }
{
    let Some((t, past)) = c.next(s) else {
        return Walk { cur: c, n: m };
    };
    if t.kind == Kind::Eof {
        Walk { cur: past, n: m }
    } else {
        content(s, t, past, m, events, errors)
    }
}
