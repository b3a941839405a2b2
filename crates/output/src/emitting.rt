// Emitting: the words of an event, or of an error, into the lent buffers. What does not fit is counted and not written.
// The line of an error, and the comma that the report of a trailing comma is about, are found when the walk is over, by the crate line_numbers.
ghost use Rattle.std.specs.Prelude.{◌≡◌, List, ℕ, ◌-◌, length};
ghost use Rattle.token.specs.Tokens.{Tok};
ghost use Rattle.rules.specs.Out.{span};
ghost use Rattle.rules.specs.Out as item;
ghost use Rattle.buffer_puts.specs.Puts.{capped};
ghost use Rattle.output.specs.Pour.{put, bufs};

use crate::expected::NOTHING;
use crate::message::TRAILING_COMMA;
use buffer_puts::{capped, one_more, put_error, put_event};
use classes::event::{encoding_of, event_number};
use rules::event::{Encoding, Event};
use token::cursor::{Cursor, Token};

// How many events and errors there are so far.
#[derive(Clone, Copy)]
pub struct Counts {
    pub events: usize,
    pub errors: usize,
}

// Where a walk ended, and the counts there.
#[derive(Clone, Copy)]
pub struct Walk {
    pub cur: Cursor,
    pub n: Counts,
}

// An event over start..end.
#[tactic(auto, unfolding(crate::specs::Pour::put, crate::specs::Pour::bufs))]
pub fn emit(events: &mut [u32], n: Counts, event: Event, start: u32, end: u32) -> Counts
    ensures { (all : List Tok) (errors : List ℕ) → bufs events.new errors result ≡ put all (item.event event start end) (bufs events.old errors n) }
{
    put_event(
        events,
        n.events,
        event_number(event),
        encoding_of(event),
        start,
        end,
    );
    Counts {
        events: one_more(n.events),
        errors: n.errors,
    }
}

// An error: message, what was expected, the context from..to, the unexpected start..end.
#[tactic(auto, unfolding(crate::specs::Pour::put, crate::specs::Pour::bufs))]
pub fn report(
    errors: &mut [u32],
    n: Counts,
    message: u32,
    expected: u32,
    from: u32,
    to: u32,
    start: u32,
    end: u32,
) -> Counts
    ensures { (all : List Tok) (events : List ℕ) → bufs events errors.new result ≡ put all (item.report message expected (span «from» to) (span start end)) (bufs events errors.old n) }
{
    put_error(errors, n.errors, message, expected, from, to, start, end, 0);
    Counts {
        events: n.events,
        errors: one_more(n.errors),
    }
}

// A trailing comma in the inline table that `head` opened, of which `behind` is the first record. The comma is still to be looked for, before the
// record `past`, a `}` that starts at `start`.
#[tactic(auto, using(buffer_puts::specs::CapLaws::capped_low), unfolding(crate::specs::Pour::put, crate::specs::Pour::bufs))]
pub fn report_trailing_comma(
    errors: &mut [u32],
    n: Counts,
    head: Token,
    behind: usize,
    past: usize,
    start: u32,
) -> Counts
    ensures { (all : List Tok) (events : List ℕ) (opened left : ℕ) → behind ≡ length all - opened → past ≡ length all - left → bufs events errors.new result ≡ put all (item.trailing_comma (span head.start head.end) opened left start) (bufs events errors.old n) }
{
    let mark = capped(behind) + 1;
    let end = capped(past);
    put_error(
        errors,
        n.errors,
        TRAILING_COMMA,
        NOTHING,
        head.start,
        head.end,
        start,
        end,
        mark,
    );
    Counts {
        events: n.events,
        errors: one_more(n.errors),
    }
}

// An error at the token t, in the context of the token `head`.
pub fn report_at(
    errors: &mut [u32],
    n: Counts,
    message: u32,
    expected: u32,
    head: Token,
    t: Token,
) -> Counts
    ensures { (all : List Tok) (events : List ℕ) → bufs events errors.new result ≡ put all (item.report message expected (span head.start head.end) (span t.start t.end)) (bufs events errors.old n) }
{
    report(
        errors, n, message, expected, head.start, head.end, t.start, t.end,
    )
}

// An error just before the token t, in the context of the token `head`.
pub fn report_before(
    errors: &mut [u32],
    n: Counts,
    message: u32,
    expected: u32,
    head: Token,
    t: Token,
) -> Counts
    ensures { (all : List Tok) (events : List ℕ) → bufs events errors.new result ≡ put all (item.report message expected (span head.start head.end) (span t.start t.start)) (bufs events errors.old n) }
{
    let place = t.start;
    report(
        errors, n, message, expected, head.start, head.end, place, place,
    )
}

// A key that is not there, invented at a place.
pub fn empty_key(events: &mut [u32], n: Counts, place: u32) -> Counts
    ensures { (all : List Tok) (errors : List ℕ) → bufs events.new errors result ≡ put all (item.event (Event.SimpleKey Encoding.None) place place) (bufs events.old errors n) }
{
    emit(events, n, Event::SimpleKey(Encoding::None), place, place)
}
