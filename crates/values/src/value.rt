// Values.
ghost use Rattle.token.specs.Tokens.{Good, tokens_at};
ghost use Rattle.rules.specs.Value.{value};
ghost use Rattle.output.specs.Pour.{bufs};
ghost use Rattle.nest.specs.Nested.{Nested};

use classes::value::in_value;
use flat_values::flat_value;
use key_spaces::nothing_left;
use nest::nest::{TooDeep, on_array_open, on_inline_table_open};
use output::emitting::{Counts, Walk, emit, report_at};
use output::expected::{A_VALUE, NOTHING};
use output::message::{EXTRA_EQUALS, MISSING_VALUE};
use rules::event::Event;
use rules::options::Settings;
use rules::value::InValue;
use scalars::scalar::on_scalar;
use token::cursor::Cursor;

// In the Rust value calls itself at an `=`; a list of them would take a frame each, so here it is a loop.
pub fn value(
    s: &[u8],
    c: Cursor,
    m: Counts,
    settings: Settings,
    events: &mut [u32],
    errors: &mut [u32],
) -> Result<Walk, TooDeep>
    requires { Good s.now c }
    ensures { Nested s.now (value settings.levels (tokens_at s.now c)) c (bufs events.old errors.old m) events.new errors.new result }
{
    let mut cur = c;
    let mut n = m;
    while let Some((t, past)) = cur.next(s) {
        let k = t.kind;
        let x = in_value(k);
        match x {
            InValue::Equals => {
                n = report_at(errors, n, EXTRA_EQUALS, NOTHING, t, t);
                n = emit(events, n, Event::Error, t.start, t.end);
                cur = past;
            }
            InValue::OpenCurly => {
                return on_inline_table_open(s, t, past, n, settings, events, errors);
            }
            InValue::OpenSquare => {
                return on_array_open(s, t, past, n, settings, events, errors);
            }
            _ => {
                let w = flat_value(s, x, t, cur, past, n, events, errors);
                return Ok(w);
            }
        }
    }
    n = nothing_left(s, cur, n, MISSING_VALUE, A_VALUE, errors);
    Ok(Walk { cur, n })
}

// A value as `value` reads it, the usual cases first: `{`, `[` and a scalar. It has one call site, so that it is compiled into its
// caller. Copies are handed to what stays out of line, so that the caller's cursor and counts stay in registers.
pub fn usual_value(
    s: &[u8],
    c: Cursor,
    m: Counts,
    settings: Settings,
    events: &mut [u32],
    errors: &mut [u32],
) -> Result<Walk, TooDeep>
    requires { Good s.now c }
    ensures { Nested s.now (value settings.levels (tokens_at s.now c)) c (bufs events.old errors.old m) events.new errors.new result }
{
    if let Some((t, past)) = c.next(s) {
        match in_value(t.kind) {
            InValue::OpenCurly => {
                let list = s;
                let head = t;
                let from = past;
                let sofar = m;
                return on_inline_table_open(list, head, from, sofar, settings, events, errors);
            }
            InValue::OpenSquare => {
                let list = s;
                let head = t;
                let from = past;
                let sofar = m;
                return on_array_open(list, head, from, sofar, settings, events, errors);
            }
            InValue::Scalar => {
                let w = on_scalar(s, t, past, m, events, errors);
                return Ok(w);
            }
            _ => {}
        }
    }
    let list = s;
    let from = c;
    let sofar = m;
    value(list, from, sofar, settings, events, errors)
}
