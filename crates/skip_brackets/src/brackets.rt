// Skipping to a closing bracket.
ghost use Rattle.token.specs.Tokens.{Good, tokens_at};
ghost use Rattle.rules.specs.Skipping.{ignore_to_value_close};
ghost use Rattle.output.specs.Pour.{bufs};
ghost use Rattle.output.specs.Walks.{Goes};

use classes::skipping::in_close;
use output::emitting::{Counts, Walk, emit};
use rules::event::Event;
use rules::skipping::{Bracket, InClose};
use skip_lines::skipping::on_comment;
use token::cursor::Cursor;

// Up to the bracket that closes; those opened meanwhile are counted.
pub fn ignore_to_value_close(
    s: &[u8],
    c: Cursor,
    m: Counts,
    closing: Bracket,
    events: &mut [u32],
    errors: &mut [u32],
) -> Walk
    requires { Good s.now c }
    ensures { Goes s.now (ignore_to_value_close closing (tokens_at s.now c)) c (bufs events.old errors.old m) events.new errors.new result }
{
    let mut cur = c;
    let mut n = m;
    let mut arrays: usize = 0;
    let mut tables: usize = 0;
    while let Some((t, past)) = cur.next(s) {
        cur = past;
        match in_close(t.kind) {
            InClose::Comment => {
                let w = on_comment(s, t, cur, n, events, errors);
                cur = w.cur;
                n = w.n;
                continue;
            }
            InClose::Whitespace => {
                n = emit(events, n, Event::Whitespace, t.start, t.end);
                continue;
            }
            InClose::Newline => {
                n = emit(events, n, Event::Newline, t.start, t.end);
                continue;
            }
            InClose::Eof => {
                return Walk { cur, n };
            }
            InClose::OpenSquare => {
                arrays += 1;
            }
            InClose::CloseSquare => {
                if arrays == 0 {
                    match closing {
                        Bracket::Square => {
                            n = emit(events, n, Event::ArrayClose, t.start, t.end);
                            return Walk { cur, n };
                        }
                        Bracket::Curly => {}
                    }
                } else {
                    arrays -= 1;
                }
            }
            InClose::OpenCurly => {
                tables += 1;
            }
            InClose::CloseCurly => {
                if tables == 0 {
                    match closing {
                        Bracket::Square => {}
                        Bracket::Curly => {
                            n = emit(events, n, Event::InlineTableClose, t.start, t.end);
                            return Walk { cur, n };
                        }
                    }
                } else {
                    tables -= 1;
                }
            }
            InClose::Other => {}
        }
        n = emit(events, n, Event::Error, t.start, t.end);
    }
    Walk { cur, n }
}
