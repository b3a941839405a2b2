// A value that opens no bracket, and what stands where a value should.
#![tactic(auto)]

ghost use Rattle.std.specs.Prelude.{◌≡◌};
ghost use Rattle.token.specs.Tokens.{Good, Took, tokens_at};
ghost use Rattle.rules.specs.Out.{done};
ghost use Rattle.rules.specs.Value.{in_value};
ghost use Rattle.output.specs.Pour.{bufs};
ghost use Rattle.output.specs.Walks.{Goes};
ghost use Rattle.flat_values.specs.Flat.{flat_value};

use lone_brackets::without_open;
use output::emitting::{Counts, Walk, emit};
use rules::event::{Encoding, Event};
use rules::skipping::Bracket;
use rules::value::InValue;
use scalars::scalar::on_scalar;
use token::cursor::{Cursor, Token};

// The token t, which is x where a value is wanted and was read from `from` on. Where it is `=` or opens a bracket, nothing is read here.
pub fn flat_value(
    s: &[u8],
    x: InValue,
    t: Token,
    from: Cursor,
    c: Cursor,
    m: Counts,
    events: &mut [u32],
    errors: &mut [u32],
) -> Walk
    requires { Good s.now from × Took s.now from t c × (x ≡ in_value t.kind) }
    ensures { Goes s.now (flat_value x t.kind t.start t.end (tokens_at s.now c) (done (tokens_at s.now from))) from (bufs events.old errors.old m) events.new errors.new result }
{
    match x {
        InValue::Nothing => {
            let n = emit(events, m, Event::Scalar(Encoding::None), t.start, t.start);
            Walk { cur: from, n }
        }
        InValue::CloseCurly => {
            let n = without_open(m, Bracket::Curly, t, events, errors);
            Walk { cur: c, n }
        }
        InValue::CloseSquare => {
            let n = without_open(m, Bracket::Square, t, events, errors);
            Walk { cur: c, n }
        }
        InValue::Scalar => on_scalar(s, t, c, m, events, errors),
        _ => Walk { cur: from, n: m },
    }
}
