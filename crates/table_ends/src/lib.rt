// The ends of table headers: closed, and not closed.
#![tactic(auto)]

ghost use Rattle.token.specs.Tokens.{Good, tokens_at};
ghost use Rattle.rules.specs.Table.{closed, unclosed};
ghost use Rattle.output.specs.Pour.{bufs};
ghost use Rattle.output.specs.Walks.{Goes};

use backward_search::nearest_before;
use line_ends::line_end::ws_comment_newline;
use output::emitting::{Counts, Walk, emit, report};
use output::expected::{CLOSE_SQUARE, CLOSE_SQUARES};
use output::message::{UNCLOSED_ARRAY_TABLE, UNCLOSED_TABLE};
use rules::event::Event;
use skip_lines::skipping::ignore_to_newline;
use token::cursor::{Cursor, Sought, Token};
use token::kind::Kind;
use token::span::Span;

// No close at all: it is reported if the key was valid, and the line is skipped.
pub fn unclosed_table(
    s: &[u8],
    head: Token,
    c: Cursor,
    m: Counts,
    array: bool,
    valid: bool,
    events: &mut [u32],
    errors: &mut [u32],
) -> Walk
    requires { Good s.now c }
    ensures { Goes s.now (unclosed array valid head.start head.end (tokens_at s.now c)) c (bufs events.old errors.old m) events.new errors.new result }
{
    if valid {
        let last = nearest_before(
            c,
            s,
            Sought::Solid,
            Span {
                start: head.start,
                end: head.end,
            },
            0,
        );
        let mut message = UNCLOSED_TABLE;
        let mut expected = CLOSE_SQUARE;
        if array {
            message = UNCLOSED_ARRAY_TABLE;
            expected = CLOSE_SQUARES;
        }
        let n = report(
            errors, m, message, expected, head.start, last.end, last.end, last.end,
        );
        return ignore_to_newline(s, c, n, events, errors);
    }
    ignore_to_newline(s, c, m, events, errors)
}

// The first `]`, and for an array table the second one directly behind it; then the end of the line.
pub fn close_table(
    s: &[u8],
    head: Token,
    close: Token,
    c: Cursor,
    m: Counts,
    array: bool,
    events: &mut [u32],
    errors: &mut [u32],
) -> Walk
    requires { Good s.now c }
    ensures { Goes s.now (closed array head.start close.start close.end (tokens_at s.now c)) c (bufs events.old errors.old m) events.new errors.new result }
{
    if array {
        let Some((second, past)) = c.next_token_if(s, Kind::RightSquareBracket) else {
            let n = report(
                errors,
                m,
                UNCLOSED_ARRAY_TABLE,
                CLOSE_SQUARE,
                head.start,
                close.end,
                close.end,
                close.end,
            );
            return ignore_to_newline(s, c, n, events, errors);
        };
        let n = emit(events, m, Event::ArrayTableClose, close.start, second.end);
        return ws_comment_newline(s, past, n, events, errors);
    }
    let n = emit(events, m, Event::StdTableClose, close.start, close.end);
    ws_comment_newline(s, c, n, events, errors)
}
