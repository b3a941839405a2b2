// What is done in an inline table where one event or report is not all: the middle of a turn, which then says what is next.
#![tactic(auto)]

ghost use Rattle.std.specs.Prelude.{◌≡◌, List, ℕ, ◌-◌, length};
ghost use Rattle.token.specs.Tokens.{Tok, Good, tokens_at};
ghost use Rattle.rules.specs.declared.skipping.Bracket.{Bracket};
ghost use Rattle.rules.specs.Out.{span};
ghost use Rattle.rules.specs.Scalar.{starting_of};
ghost use Rattle.output.specs.Pour.{bufs, pour};
ghost use Rattle.output.specs.Walks.{Goes};
ghost use Rattle.scalars.specs.ScalarWalks.{Starts};
ghost use Rattle.key_dots.specs.KeyWalks.{ReadDot};
ghost use Rattle.inline_steps.specs.Steps.{comment_out, newline_items, eof_items, empty_key_items, keyless_out, unassigned_out, key_out, dot_out, close_items};

use inline_parts::parts::{missing, refuse, trailing_comma};
use output::emitting::{Counts, Walk, emit, empty_key, report_at};
use output::expected::{CLOSE_CURLY, NOTHING};
use output::message::{
    COMMENT_IN_INLINE_TABLE, MISSING_ASSIGNMENT, MISSING_COMMA_IN_INLINE_TABLE,
    MISSING_KEY_IN_INLINE_TABLE, NEWLINE_IN_INLINE_TABLE, UNCLOSED_INLINE_TABLE,
};
use rules::event::Event;
use rules::inline_table::Progress;
use rules::skipping::Bracket;
use scalars::scalar::on_scalar;
use skip_brackets::brackets::ignore_to_value_close;
use skip_lines::skipping::on_comment;
use table_keys::{table_dot, table_key};
use token::cursor::{Cursor, Token};

// A comment: a report, then the comment.
pub fn comment(
    s: &[u8],
    head: Token,
    t: Token,
    c: Cursor,
    m: Counts,
    events: &mut [u32],
    errors: &mut [u32],
) -> Walk
    requires { Good s.now c }
    ensures { Goes s.now (comment_out (span head.start head.end) t.start t.end (tokens_at s.now c)) c (bufs events.old errors.old m) events.new errors.new result }
{
    let n = report_at(errors, m, COMMENT_IN_INLINE_TABLE, NOTHING, head, t);
    on_comment(s, t, c, n, events, errors)
}

// A newline: a report, and its event.
pub fn newline(head: Token, t: Token, m: Counts, events: &mut [u32], errors: &mut [u32]) -> Counts
    ensures { (all : List Tok) → bufs events.new errors.new result ≡ pour all (newline_items (span head.start head.end) t.start t.end) (bufs events.old errors.old m) }
{
    let n = report_at(errors, m, NEWLINE_IN_INLINE_TABLE, NOTHING, head, t);
    emit(events, n, Event::Newline, t.start, t.end)
}

// The end of the list: a report, and an empty close.
pub fn eof(head: Token, t: Token, m: Counts, events: &mut [u32], errors: &mut [u32]) -> Counts
    ensures { (all : List Tok) → bufs events.new errors.new result ≡ pour all (eof_items (span head.start head.end) t.start t.end) (bufs events.old errors.old m) }
{
    let n = report_at(errors, m, UNCLOSED_INLINE_TABLE, CLOSE_CURLY, head, t);
    emit(events, n, Event::InlineTableClose, t.start, t.start)
}

// An `=` where a key is wanted: the key is empty.
pub fn equals_without_key(t: Token, m: Counts, events: &mut [u32]) -> Counts
    ensures { (all : List Tok) (errors : List ℕ) → bufs events.new errors result ≡ pour all (empty_key_items t.start t.end) (bufs events.old errors m) }
{
    let n = empty_key(events, m, t.start);
    emit(events, n, Event::KeyValSep, t.start, t.end)
}

// A `[` where a key is wanted: it is skipped up to where it closes. It and the next are two, so that each is compiled into its one caller.
pub fn keyless_array(
    s: &[u8],
    head: Token,
    t: Token,
    c: Cursor,
    m: Counts,
    p: Progress,
    events: &mut [u32],
    errors: &mut [u32],
) -> Walk
    requires { Good s.now c }
    ensures { Goes s.now (keyless_out Bracket.Square p.state (span head.start head.end) t.start t.end (tokens_at s.now c)) c (bufs events.old errors.old m) events.new errors.new result }
{
    let n = refuse(m, MISSING_KEY_IN_INLINE_TABLE, p, head, t, events, errors);
    ignore_to_value_close(s, c, n, Bracket::Square, events, errors)
}

// A `{` where a key is wanted.
pub fn keyless_table(
    s: &[u8],
    head: Token,
    t: Token,
    c: Cursor,
    m: Counts,
    p: Progress,
    events: &mut [u32],
    errors: &mut [u32],
) -> Walk
    requires { Good s.now c }
    ensures { Goes s.now (keyless_out Bracket.Curly p.state (span head.start head.end) t.start t.end (tokens_at s.now c)) c (bufs events.old errors.old m) events.new errors.new result }
{
    let n = refuse(m, MISSING_KEY_IN_INLINE_TABLE, p, head, t, events, errors);
    ignore_to_value_close(s, c, n, Bracket::Curly, events, errors)
}

// A scalar where `=` is wanted: a report, then the scalar.
pub fn unassigned_scalar(
    s: &[u8],
    head: Token,
    t: Token,
    c: Cursor,
    m: Counts,
    p: Progress,
    events: &mut [u32],
    errors: &mut [u32],
) -> Walk
    requires good { Good s.now c }
    requires starts { Starts (starting_of t.kind) }
    ensures { Goes s.now (unassigned_out t.kind p.state (span head.start head.end) t.start t.end (tokens_at s.now c)) c (bufs events.old errors.old m) events.new errors.new result }
{
    let n = missing(m, MISSING_ASSIGNMENT, p, head, t, errors);
    on_scalar(s, t, c, n, events, errors)
}

// A key where a comma is wanted: a report, then the key.
pub fn key_without_comma(
    s: &[u8],
    head: Token,
    t: Token,
    c: Cursor,
    m: Counts,
    p: Progress,
    events: &mut [u32],
    errors: &mut [u32],
) -> Walk
    requires { Good s.now c }
    ensures { Goes s.now (key_out t.kind p.state (span head.start head.end) t.start t.end (tokens_at s.now c)) c (bufs events.old errors.old m) events.new errors.new result }
{
    let n = missing(m, MISSING_COMMA_IN_INLINE_TABLE, p, head, t, errors);
    table_key(s, t, c, n, events, errors)
}

// A dot where a comma is wanted: a report, then the key that begins with it.
pub fn dot_without_comma(
    s: &[u8],
    head: Token,
    t: Token,
    c: Cursor,
    m: Counts,
    p: Progress,
    events: &mut [u32],
    errors: &mut [u32],
) -> Walk
    requires good { Good s.now c }
    requires read_dot { ReadDot s.now t c }
    ensures { Goes s.now (dot_out t.kind p.state (span head.start head.end) t.start t.end (tokens_at s.now c)) c (bufs events.old errors.old m) events.new errors.new result }
{
    let n = missing(m, MISSING_COMMA_IN_INLINE_TABLE, p, head, t, errors);
    table_dot(s, t, c, n, events, errors)
}

// The `}` at the cursor c: where a comma stands before it, a report; then the close. `opened` is the record behind the `{`.
pub fn close(
    c: Cursor,
    opened: usize,
    head: Token,
    t: Token,
    m: Counts,
    p: Progress,
    events: &mut [u32],
    errors: &mut [u32],
) -> Counts
    ensures { (all : List Tok) (behind left : ℕ) → opened ≡ length all - behind → c.at ≡ length all - left → bufs events.new errors.new result ≡ pour all (close_items p.empty p.state (span head.start head.end) behind t.start t.end left) (bufs events.old errors.old m) }
{
    let at = c.at;
    let n = trailing_comma(at, opened, m, p, head, t, errors);
    emit(events, n, Event::InlineTableClose, t.start, t.end)
}
