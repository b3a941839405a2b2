// One turn in an array or an inline table: what is to be done after it.
ghost use Rattle.std.specs.Prelude.{◌≡◌, [], ℕ};
ghost use Rattle.token.specs.Tokens.{Good, tokens_at, all_tokens};
ghost use Rattle.rules.specs.Out.{span};
ghost use Rattle.output.specs.Pour.{bufs, pour};
ghost use Rattle.array_parts.specs.declared.turn.Next.{Next};
ghost use Rattle.array_parts.specs.Turning.{unclosed_items};

use backward_search::nearest_before;
use output::emitting::{Counts, Walk, emit, report};
use rules::event::Event;
use token::cursor::{Cursor, Sought, Token};
use token::span::Span;

// Another turn; the end; or first what the bracket opens.
#[derive(Clone, Copy)]
pub enum Next {
    Again,
    Over,
    OpenArray(Token),
    OpenTable(Token),
}

// Where a turn ended, the counts there, and what is next.
#[derive(Clone, Copy)]
pub struct Turn {
    pub cur: Cursor,
    pub n: Counts,
    pub next: Next,
}

// A turn, and the state behind it: what an array wants, or how far an inline table is.
#[derive(Clone, Copy)]
pub struct StateTurn<S> {
    pub turn: Turn,
    pub state: S,
}

// Another turn.
pub fn again<S>(cur: Cursor, n: Counts, state: S) -> StateTurn<S>
    ensures { result ≡ record { turn = record { cur = cur; n = n; next = Next.Again }; state = state } }
{
    opening(cur, n, Next::Again, state)
}

// The same, from where a walk ended.
pub fn again_walk<S>(w: Walk, state: S) -> StateTurn<S>
    ensures { result ≡ record { turn = record { cur = w.cur; n = w.n; next = Next.Again }; state = state } }
{
    again(w.cur, w.n, state)
}

// The end of what was opened.
pub fn over<S>(cur: Cursor, n: Counts, state: S) -> StateTurn<S>
    ensures { result ≡ record { turn = record { cur = cur; n = n; next = Next.Over }; state = state } }
{
    opening(cur, n, Next::Over, state)
}

// First what a bracket opens, or what else is next.
pub fn opening<S>(cur: Cursor, n: Counts, next: Next, state: S) -> StateTurn<S>
    ensures { result ≡ record { turn = record { cur = cur; n = n; next = next }; state = state } }
{
    StateTurn {
        turn: Turn { cur, n, next },
        state,
    }
}

// The list is exhausted in what `head` opened: a report, and an array's close after the nearest significant token.
pub fn unclosed(
    s: &[u8],
    head: Token,
    c: Cursor,
    m: Counts,
    message: u32,
    expected: u32,
    events: &mut [u32],
    errors: &mut [u32],
) -> Counts
    requires good { Good s.now c }
    requires c_value { tokens_at s.now c ≡ [] }
    ensures { (base : ℕ) → c.base ≡ base → bufs events.new errors.new result ≡ pour (all_tokens s.now base) (unclosed_items message expected (span head.start head.end)) (bufs events.old errors.old m) }
{
    let last = nearest_before(c, s, Sought::Significant, Span { start: 0, end: 0 }, 0);
    let i = report(
        errors, m, message, expected, head.start, head.end, last.end, last.end,
    );
    emit(events, i, Event::ArrayClose, last.end, last.end)
}
