// What stands where the one part of a simple key should: the part, or something else.
#![tactic(auto)]

ghost use Rattle.token.specs.Tokens.{Good, tokens_at};
ghost use Rattle.rules.specs.Keys.{on_missing_key, simple_part};
ghost use Rattle.rules.specs.Skipping.{in_line};
ghost use Rattle.output.specs.Pour.{bufs};
ghost use Rattle.output.specs.Walks.{Goes};
ghost use Rattle.simple_parts.specs.SimpleKeys.{simple_key_at};

use classes::skipping::in_line;
use output::emitting::{Counts, Walk, emit, report_at, report_before};
use output::expected::{A_KEY, KEY_STRINGS};
use rules::event::{Encoding, Event};
use rules::skipping::InLine;
use skip_lines::skipping::on_comment;
use token::cursor::{Cursor, Token};

// No key at the token t.
pub fn on_missing_key(
    s: &[u8],
    t: Token,
    c: Cursor,
    m: Counts,
    message: u32,
    events: &mut [u32],
    errors: &mut [u32],
) -> Walk
    requires { Good s.now c }
    ensures { Goes s.now (on_missing_key message (in_line t.kind) t.start t.end (tokens_at s.now c)) c (bufs events.old errors.old m) events.new errors.new result }
{
    let i = report_before(errors, m, message, A_KEY, t, t);
    match in_line(t.kind) {
        InLine::Comment => on_comment(s, t, c, i, events, errors),
        InLine::Newline => {
            let n = emit(events, i, Event::Newline, t.start, t.end);
            Walk { cur: c, n }
        }
        InLine::Eof => Walk { cur: c, n: i },
        _ => {
            let n = emit(events, i, Event::Error, t.start, t.end);
            Walk { cur: c, n }
        }
    }
}

// The part t of a simple key: a multi-line string is reported.
pub fn simple_part(
    s: &[u8],
    t: Token,
    encoding: Encoding,
    c: Cursor,
    m: Counts,
    message: u32,
    events: &mut [u32],
    errors: &mut [u32],
) -> Walk
    requires { Good s.now c }
    ensures { Goes s.now (simple_part message encoding t.start t.end (simple_key_at encoding t.start t.end (tokens_at s.now c))) c (bufs events.old errors.old m) events.new errors.new result }
{
    match encoding {
        Encoding::MlLiteralString | Encoding::MlBasicString => {
            let i = report_at(errors, m, message, KEY_STRINGS, t, t);
            let n = emit(events, i, Event::SimpleKey(encoding), t.start, t.end);
            Walk { cur: c, n }
        }
        _ => {
            let n = emit(events, m, Event::SimpleKey(encoding), t.start, t.end);
            Walk { cur: c, n }
        }
    }
}
