// Skipping to the end of a line.
ghost use Rattle.std.specs.Prelude.{◌≡◌, List};
ghost use Rattle.token.specs.Tokens.{Tok, Good, tokens_at};
ghost use Rattle.rules.specs.Skipping.{ignore_to_newline, on_comment};
ghost use Rattle.output.specs.Pour.{bufs, pour};
ghost use Rattle.output.specs.Walks.{Goes};
ghost use Rattle.skip_lines.specs.LineEnd.{line_end, content_after_comment};

use classes::skipping::in_line;
use output::emitting::{Counts, Walk, emit, report};
use output::expected::A_NEWLINE;
use output::message::CONTENT_AFTER_COMMENT;
use rules::event::Event;
use rules::skipping::InLine;
use token::cursor::{Cursor, Token};

// The token t behind a comment that began at `begin`: a report, and an error event.
fn content_after_comment(
    n: Counts,
    begin: u32,
    t: Token,
    events: &mut [u32],
    errors: &mut [u32],
) -> Counts
    ensures { (all : List Tok) → bufs events.new errors.new result ≡ pour all (content_after_comment begin t.start t.end) (bufs events.old errors.old n) }
{
    let i = report(
        errors,
        n,
        CONTENT_AFTER_COMMENT,
        A_NEWLINE,
        begin,
        t.end,
        t.start,
        t.start,
    );
    emit(events, i, Event::Error, t.start, t.end)
}

// To the end of the line; if `behind`, what comes is behind a comment that began at `begin`. In the Rust ignore_to_newline and
// on_comment call each other; a list of comments would take a frame each, so here the two are one loop.
fn to_line_end(
    s: &[u8],
    c: Cursor,
    m: Counts,
    behind: bool,
    begin: u32,
    events: &mut [u32],
    errors: &mut [u32],
) -> Walk
    requires { Good s.now c }
    ensures { Goes s.now (line_end behind begin (tokens_at s.now c)) c (bufs events.old errors.old m) events.new errors.new result }
{
    let mut cur = c;
    let mut n = m;
    let mut after = behind;
    let mut start = begin;
    while let Some((t, past)) = cur.next(s) {
        cur = past;
        let k = t.kind;
        let x = in_line(k);
        match x {
            InLine::Newline => {
                n = emit(events, n, Event::Newline, t.start, t.end);
                return Walk { cur, n };
            }
            InLine::Eof => {
                return Walk { cur, n };
            }
            _ => {
                if after {
                    n = content_after_comment(n, start, t, events, errors);
                    after = false;
                } else {
                    match x {
                        InLine::Whitespace => {
                            n = emit(events, n, Event::Whitespace, t.start, t.end);
                        }
                        InLine::Comment => {
                            n = emit(events, n, Event::Comment, t.start, t.end);
                            after = true;
                            start = t.start;
                        }
                        _ => {
                            n = emit(events, n, Event::Error, t.start, t.end);
                        }
                    }
                }
            }
        }
    }
    Walk { cur, n }
}

pub fn ignore_to_newline(
    s: &[u8],
    c: Cursor,
    m: Counts,
    events: &mut [u32],
    errors: &mut [u32],
) -> Walk
    requires { Good s.now c }
    ensures { Goes s.now (ignore_to_newline (tokens_at s.now c)) c (bufs events.old errors.old m) events.new errors.new result }
{
    to_line_end(s, c, m, false, 0, events, errors)
}

// The comment t, and the end of its line.
pub fn on_comment(
    s: &[u8],
    t: Token,
    c: Cursor,
    m: Counts,
    events: &mut [u32],
    errors: &mut [u32],
) -> Walk
    requires { Good s.now c }
    ensures { Goes s.now (on_comment t.start t.end (tokens_at s.now c)) c (bufs events.old errors.old m) events.new errors.new result }
{
    let n = emit(events, m, Event::Comment, t.start, t.end);
    to_line_end(s, c, n, true, t.start, events, errors)
}
