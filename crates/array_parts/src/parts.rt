// What a turn in an array does at a comma, and where one is missing.
ghost use Rattle.std.specs.Prelude.{◌≡◌, List};
ghost use Rattle.token.specs.Tokens.{Tok};
ghost use Rattle.rules.specs.Out.{span};
ghost use Rattle.rules.specs.Array.{missing_comma};
ghost use Rattle.output.specs.Pour.{bufs, pour};
ghost use Rattle.array_parts.specs.Turning.{comma_items};

use output::emitting::{Counts, emit, report_at, report_before};
use output::expected::{A_VALUE, COMMA};
use output::message::{EXTRA_COMMA_IN_ARRAY, MISSING_COMMA_IN_ARRAY};
use rules::array::ArrayState;
use rules::event::Event;
use token::cursor::Token;

// A comma that is missing before t, where one is wanted.
pub fn missing_comma(
    n: Counts,
    state: ArrayState,
    head: Token,
    t: Token,
    events: &mut [u32],
    errors: &mut [u32],
) -> Counts
    ensures { (all : List Tok) → bufs events.new errors.new result ≡ pour all (missing_comma (span head.start head.end) state t.start t.end) (bufs events.old errors.old n) }
{
    match state {
        ArrayState::NeedsValue => n,
        ArrayState::NeedsComma => {
            let i = report_before(errors, n, MISSING_COMMA_IN_ARRAY, COMMA, head, t);
            emit(events, i, Event::ValueSep, t.start, t.start)
        }
    }
}

// A comma: one too many where a value is wanted.
pub fn comma(
    n: Counts,
    state: ArrayState,
    head: Token,
    t: Token,
    events: &mut [u32],
    errors: &mut [u32],
) -> Counts
    ensures { (all : List Tok) → bufs events.new errors.new result ≡ pour all (comma_items (span head.start head.end) state t.start t.end) (bufs events.old errors.old n) }
{
    match state {
        ArrayState::NeedsValue => {
            let i = report_at(errors, n, EXTRA_COMMA_IN_ARRAY, A_VALUE, head, t);
            emit(events, i, Event::Error, t.start, t.end)
        }
        ArrayState::NeedsComma => emit(events, n, Event::ValueSep, t.start, t.end),
    }
}
