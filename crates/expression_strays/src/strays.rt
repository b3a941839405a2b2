// What stands where a key, the head of a table or `=` should.
ghost use Rattle.token.specs.Tokens.{Good, tokens_at};
ghost use Rattle.rules.specs.Document.{no_equals, on_missing_expression_key, on_missing_std_table};
ghost use Rattle.output.specs.Pour.{bufs};
ghost use Rattle.output.specs.Walks.{Goes};

use output::emitting::{Counts, Walk, emit, report, report_before};
use output::expected::{A_KEY, EQUALS, OPEN_SQUARE};
use output::message::{INVALID_KEY_VALUE_PAIR, MISSING_TABLE_OPEN};
use rules::event::Event;
use skip_lines::skipping::ignore_to_newline;
use token::cursor::{Cursor, Token};

pub fn on_missing_expression_key(
    s: &[u8],
    t: Token,
    c: Cursor,
    m: Counts,
    events: &mut [u32],
    errors: &mut [u32],
) -> Walk
    requires { Good s.now c }
    ensures { Goes s.now (on_missing_expression_key t.start t.end (tokens_at s.now c)) c (bufs events.old errors.old m) events.new errors.new result }
{
    let i = report_before(errors, m, INVALID_KEY_VALUE_PAIR, A_KEY, t, t);
    let n = emit(events, i, Event::Error, t.start, t.end);
    ignore_to_newline(s, c, n, events, errors)
}

pub fn on_missing_std_table(
    s: &[u8],
    t: Token,
    c: Cursor,
    m: Counts,
    events: &mut [u32],
    errors: &mut [u32],
) -> Walk
    requires { Good s.now c }
    ensures { Goes s.now (on_missing_std_table t.start t.end (tokens_at s.now c)) c (bufs events.old errors.old m) events.new errors.new result }
{
    let i = report_before(errors, m, MISSING_TABLE_OPEN, OPEN_SQUARE, t, t);
    let n = emit(events, i, Event::Error, t.start, t.end);
    ignore_to_newline(s, c, n, events, errors)
}

// No `=`: reported if a token is left, and the line is skipped.
pub fn no_equals(
    s: &[u8],
    c: Cursor,
    m: Counts,
    message: u32,
    events: &mut [u32],
    errors: &mut [u32],
) -> Walk
    requires { Good s.now c }
    ensures { Goes s.now (no_equals message (tokens_at s.now c)) c (bufs events.old errors.old m) events.new errors.new result }
{
    let Some(t) = c.peek(s) else {
        return Walk { cur: c, n: m };
    };
    let n = report(
        errors, m, message, EQUALS, t.start, t.start, t.start, t.start,
    );
    ignore_to_newline(s, c, n, events, errors)
}
