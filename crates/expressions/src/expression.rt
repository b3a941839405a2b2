// Expressions: a key, `=` and a value.
// What is handed to a function that stays out of line lies in memory from then on, so copies are handed on, and the walk's own cursor and
// counts stay in registers.
ghost use Rattle.token.specs.Tokens.{Good, tokens_at};
ghost use Rattle.rules.specs.Document.{on_expression_key_val_sep, expression};
ghost use Rattle.output.specs.Pour.{bufs};
ghost use Rattle.nest.specs.Nested.{Nested};
ghost use Rattle.expressions.specs.Expressed.{Expressed};

use expression_strays::strays::no_equals;
use key_dots::dots::dot_keys;
use key_spaces::opt_whitespace;
use line_ends::line_end::usual_line_end;
use nest::nest::TooDeep;
use output::emitting::{Counts, Walk, emit};
use rules::event::Event;
use rules::options::Settings;
use token::cursor::{Cursor, Token};
use token::kind::Kind;
use values::value::usual_value;

// The `=` eq, the value behind it, and the end of the line.
fn on_expression_key_val_sep(
    s: &[u8],
    eq: Token,
    c: Cursor,
    m: Counts,
    settings: Settings,
    events: &mut [u32],
    errors: &mut [u32],
) -> Result<Walk, TooDeep>
    requires { Good s.now c }
    ensures { Nested s.now (on_expression_key_val_sep settings.levels eq.start eq.end (tokens_at s.now c)) c (bufs events.old errors.old m) events.new errors.new result }
{
    let n = emit(events, m, Event::KeyValSep, eq.start, eq.end);
    let w = opt_whitespace(s, c, n, events, errors);
    let from = w.cur;
    let i = w.n;
    let v = usual_value(s, from, i, settings, events, errors)?;
    let behind = v.cur;
    let j = v.n;
    let z = usual_line_end(s, behind, j, events, errors);
    Ok(z)
}

// From behind the first part of a key on. Whitespace, then dots and the parts behind them, is what opt_dot_keys reads; usually `=` comes
// behind the whitespace, and then there are no dots.
pub fn key_and_value(
    s: &[u8],
    c: Cursor,
    m: Counts,
    message: u32,
    settings: Settings,
    events: &mut [u32],
    errors: &mut [u32],
) -> Result<Walk, TooDeep>
    requires { Good s.now c }
    ensures { Expressed s.now (expression message settings.levels (tokens_at s.now c)) c (bufs events.old errors.old m) events.new errors.new result }
{
    let w = opt_whitespace(s, c, m, events, errors);
    let mut cur = w.cur;
    let mut n = w.n;
    match cur.next_token_if(s, Kind::Equals) {
        Some(_) => {}
        None => {
            let list = s;
            let from = cur;
            let sofar = n;
            let k = dot_keys(list, from, sofar, events, errors);
            let behind = k.cur;
            let i = k.n;
            let v = opt_whitespace(s, behind, i, events, errors);
            cur = v.cur;
            n = v.n;
        }
    }
    let Some((eq, past)) = cur.next_token_if(s, Kind::Equals) else {
        let list = s;
        let from = cur;
        let sofar = n;
        let z = no_equals(list, from, sofar, message, events, errors);
        return Ok(z);
    };
    on_expression_key_val_sep(s, eq, past, n, settings, events, errors)
}
