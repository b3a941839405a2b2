// What an inline table is made of beside its keys: its last comma, and the reports of what it does not want.
ghost use Rattle.std.specs.Prelude.{◌≡◌, List, ℕ, ◌-◌, length};
ghost use Rattle.token.specs.Tokens.{Tok};
ghost use Rattle.rules.specs.Out.{span, before, report};
ghost use Rattle.rules.specs.InlineTable.{wanted, refused, trailing};
ghost use Rattle.output.specs.Pour.{bufs, put, pour};

use inline_actions::wanted_in;
use output::emitting::{Counts, emit, report_before, report_trailing_comma};
use rules::event::Event;
use rules::inline_table::{Progress, State};
use token::cursor::Token;

// The report of what the state wants, before t.
pub fn missing(
    n: Counts,
    message: u32,
    p: Progress,
    head: Token,
    t: Token,
    errors: &mut [u32],
) -> Counts
    ensures { (all : List Tok) (events : List ℕ) → bufs events errors.new result ≡ put all (report message (wanted p.state) (span head.start head.end) (before t.start t.end)) (bufs events errors.old n) }
{
    let state = p.state;
    let x = wanted_in(state);
    report_before(errors, n, message, x, head, t)
}

// A token that the state does not want: a report, and an error event.
pub fn refuse(
    n: Counts,
    message: u32,
    p: Progress,
    head: Token,
    t: Token,
    events: &mut [u32],
    errors: &mut [u32],
) -> Counts
    ensures { (all : List Tok) → bufs events.new errors.new result ≡ pour all (refused message p.state (span head.start head.end) t.start t.end) (bufs events.old errors.old n) }
{
    let m = missing(n, message, p, head, t, errors);
    emit(events, m, Event::Error, t.start, t.end)
}

// A `}` where something was read and no comma is wanted: a comma before it is to blame. `at` is the record of the `}`, and `opened` the one
// behind the `{` of its table.
pub fn trailing_comma(
    at: usize,
    opened: usize,
    n: Counts,
    p: Progress,
    head: Token,
    t: Token,
    errors: &mut [u32],
) -> Counts
    ensures { (all : List Tok) (events : List ℕ) (behind left : ℕ) → opened ≡ length all - behind → at ≡ length all - left → bufs events errors.new result ≡ pour all (trailing p.empty p.state (span head.start head.end) behind t.start left) (bufs events errors.old n) }
{
    let empty = p.empty;
    if empty {
        return n;
    }
    let state = p.state;
    match state {
        State::NeedsComma => n,
        _ => report_trailing_comma(errors, n, head, opened, at, t.start),
    }
}
