// The ends of lines.
ghost use Rattle.token.specs.Tokens.{Good, tokens_at};
ghost use Rattle.rules.specs.Skipping.{ending, ws_comment_newline};
ghost use Rattle.output.specs.Pour.{bufs};
ghost use Rattle.output.specs.Walks.{Goes};

use classes::skipping::in_line;
use output::emitting::{Counts, Walk, emit, report};
use output::expected::NEWLINE_OR_COMMENT;
use output::message::UNEXPECTED_KEY_OR_VALUE;
use rules::event::Event;
use rules::skipping::InLine;
use skip_lines::skipping::{ignore_to_newline, on_comment};
use token::cursor::Cursor;
use token::kind::Kind;

// Whitespace, then a comment, a newline or the end; anything else is reported and the line is skipped.
pub fn ws_comment_newline(
    s: &[u8],
    c: Cursor,
    m: Counts,
    events: &mut [u32],
    errors: &mut [u32],
) -> Walk
    requires { Good s.now c }
    ensures { Goes s.now (ws_comment_newline (tokens_at s.now c)) c (bufs events.old errors.old m) events.new errors.new result }
{
    let Some(first) = c.peek(s) else {
        return Walk { cur: c, n: m };
    };
    line_ending(s, c, m, first.start, events, errors)
}

// The end of a line as ws_comment_newline reads it, the usual case first: a newline at once. It has one call site, so that it is
// compiled into its caller. Copies are handed on, so that the caller's cursor and counts stay in registers.
pub fn usual_line_end(
    s: &[u8],
    c: Cursor,
    m: Counts,
    events: &mut [u32],
    errors: &mut [u32],
) -> Walk
    requires { Good s.now c }
    ensures { Goes s.now (ws_comment_newline (tokens_at s.now c)) c (bufs events.old errors.old m) events.new errors.new result }
{
    let Some((t, past)) = c.next_token_if(s, Kind::Newline) else {
        let list = s;
        let from = c;
        let sofar = m;
        return ws_comment_newline(list, from, sofar, events, errors);
    };
    let n = emit(events, m, Event::Newline, t.start, t.end);
    Walk { cur: past, n }
}

// The end of a line, of which the first token began at `first`.
fn line_ending(
    s: &[u8],
    c: Cursor,
    m: Counts,
    first: u32,
    events: &mut [u32],
    errors: &mut [u32],
) -> Walk
    requires { Good s.now c }
    ensures { Goes s.now (ending (tokens_at s.now c) first) c (bufs events.old errors.old m) events.new errors.new result }
{
    let mut cur = c;
    let mut n = m;
    while let Some((t, past)) = cur.next(s) {
        cur = past;
        match in_line(t.kind) {
            InLine::Other => {
                n = report(
                    errors,
                    n,
                    UNEXPECTED_KEY_OR_VALUE,
                    NEWLINE_OR_COMMENT,
                    first,
                    t.end,
                    t.start,
                    t.start,
                );
                n = emit(events, n, Event::Error, t.start, t.end);
                return ignore_to_newline(s, cur, n, events, errors);
            }
            InLine::Comment => {
                return on_comment(s, t, cur, n, events, errors);
            }
            InLine::Whitespace => {
                n = emit(events, n, Event::Whitespace, t.start, t.end);
            }
            InLine::Newline => {
                n = emit(events, n, Event::Newline, t.start, t.end);
                return Walk { cur, n };
            }
            InLine::Eof => {
                return Walk { cur, n };
            }
        }
    }
    Walk { cur, n }
}
