// The document loop.
ghost use Rattle.std.specs.Prelude.{◌≡◌};
ghost use Rattle.token.specs.Tokens.{Good, tokens_at};
ghost use Rattle.rules.specs.Document.{document, document_turn};
ghost use Rattle.output.specs.Pour.{bufs};
ghost use Rattle.nest.specs.Nested.{Nested};
ghost use Rattle.documents.specs.Documents.{Stepped, turn_of};

use classes::document::in_document;
use expression_keys::{on_expression_dot, on_expression_key};
use expressions::expression::key_and_value;
use keyless_turns::keyless_turn;
use nest::nest::TooDeep;
use output::emitting::{Counts, Walk, empty_key};
use output::message::KEY_WITH_NO_VALUE;
use rules::document::InDocument;
use rules::options::Settings;
use std::ops::ControlFlow;
use token::cursor::Cursor;

// Where a turn of the document loop ended; the last turn breaks off, and so does one in which a level was refused.
type DocumentTurn = ControlFlow<Result<Walk, TooDeep>, Walk>;

// A turn that is not the last, unless a level was refused in it.
fn turn_of(walk: Result<Walk, TooDeep>) -> DocumentTurn
    ensures { result ≡ turn_of walk }
{
    match walk {
        Ok(w) => ControlFlow::Continue(w),
        Err(_) => ControlFlow::Break(walk),
    }
}

// One expression, or what stands where one should. The arms for the start of a key emit its first part, and what follows it is walked
// by the one call of key_and_value, so that it is compiled in here.
fn document_turn(
    s: &[u8],
    c: Cursor,
    m: Counts,
    settings: Settings,
    events: &mut [u32],
    errors: &mut [u32],
) -> DocumentTurn
    requires { Good s.now c }
    ensures { Stepped s.now (λ loop. document_turn settings.levels loop tt (tokens_at s.now c)) c (bufs events.old errors.old m) events.new errors.new result }
{
    let Some((t, past)) = c.next(s) else {
        return ControlFlow::Break(Ok(Walk { cur: c, n: m }));
    };
    let k = t.kind;
    let x = in_document(k);
    let mut from = past;
    let mut n = m;
    let mut message = KEY_WITH_NO_VALUE;
    match x {
        InDocument::Key(e) => {
            let start = on_expression_key(t, e, past, m, events);
            from = start.cur;
            n = start.n;
            message = start.message;
        }
        InDocument::Equals => {
            // An empty key, and back to the `=`. Since it follows, the message is not used.
            n = empty_key(events, m, t.start);
            from = past.back(s);
        }
        InDocument::Dot => {
            let start = on_expression_dot(s, t, past, m, events);
            from = start.cur;
            n = start.n;
            message = start.message;
        }
        InDocument::Eof => {
            return ControlFlow::Break(Ok(Walk { cur: past, n: m }));
        }
        _ => {
            let w = keyless_turn(s, x, t, past, m, events, errors);
            return ControlFlow::Continue(w);
        }
    }
    let walk = key_and_value(s, from, n, message, settings, events, errors);
    turn_of(walk)
}

pub fn document(
    s: &[u8],
    c: Cursor,
    m: Counts,
    settings: Settings,
    events: &mut [u32],
    errors: &mut [u32],
) -> Result<Walk, TooDeep>
    requires { Good s.now c }
    ensures { Nested s.now (document settings.levels (tokens_at s.now c)) c (bufs events.old errors.old m) events.new errors.new result }
{
    let mut cur = c;
    let mut n = m;
    loop {
        match document_turn(s, cur, n, settings, events, errors) {
            ControlFlow::Break(end) => return end,
            ControlFlow::Continue(w) => {
                cur = w.cur;
                n = w.n;
            }
        }
    }
}
