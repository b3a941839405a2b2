// A closing bracket where a value is wanted. Proved equal to its rule.
#![tactic(auto)]

ghost use Rattle.std.specs.Prelude.{◌≡◌, List};
ghost use Rattle.token.specs.Tokens.{Tok};
ghost use Rattle.rules.specs.WithoutOpen.{without_open};
ghost use Rattle.output.specs.Pour.{bufs, pour};

use output::emitting::{Counts, emit, report_before};
use output::expected::{OPEN_CURLY, OPEN_SQUARE};
use output::message::{MISSING_ARRAY_OPENING, MISSING_INLINE_TABLE_OPENING};
use rules::event::Event;
use rules::skipping::Bracket;
use token::cursor::Token;

// The bracket t closes what nothing opened: an empty open is invented.
pub fn without_open(
    n: Counts,
    bracket: Bracket,
    t: Token,
    events: &mut [u32],
    errors: &mut [u32],
) -> Counts
    ensures { (all : List Tok) → bufs events.new errors.new result ≡ pour all (without_open bracket t.start t.end) (bufs events.old errors.old n) }
{
    match bracket {
        Bracket::Square => {
            let i = report_before(errors, n, MISSING_ARRAY_OPENING, OPEN_SQUARE, t, t);
            let j = emit(events, i, Event::ArrayOpen, t.start, t.start);
            emit(events, j, Event::ArrayClose, t.start, t.end)
        }
        Bracket::Curly => {
            let i = report_before(errors, n, MISSING_INLINE_TABLE_OPENING, OPEN_CURLY, t, t);
            let j = emit(events, i, Event::InlineTableOpen, t.start, t.start);
            emit(events, j, Event::InlineTableClose, t.start, t.end)
        }
    }
}
