// Inline tables: a turn at a token that a well-formed table does not have there.
ghost use Rattle.std.specs.Prelude.{◌≡◌};
ghost use Rattle.rules.specs.Out.{span};
ghost use Rattle.rules.specs.InlineTable.{action_of};
ghost use Rattle.output.specs.Pour.{bufs};
ghost use Rattle.inline_turns.specs.Irregular.{Read, Irregular, TurnsAt};

use crate::table_turn::{TableTurn, opens, read, read_walk};
use array_parts::turn::{Next, again, again_walk, over};
use inline_parts::parts::{missing, refuse};
use inline_steps::{
    dot_without_comma, eof, equals_without_key, key_without_comma, keyless_array, keyless_table,
    unassigned_scalar,
};
use lone_brackets::without_open;
use output::emitting::Counts;
use output::message::{
    EXTRA_ASSIGNMENT, EXTRA_COMMA_IN_INLINE_TABLE, INVALID_INLINE_TABLE_ELEMENT, MISSING_ASSIGNMENT,
};
use rules::inline_table::{Action, Progress, State};
use rules::skipping::Bracket;
use token::cursor::{Cursor, Token};

// The token t was read, just before c, and its action is one that reports something. The last arm is DotKeyWithoutComma's.
pub fn irregular_turn(
    s: &[u8],
    head: Token,
    t: Token,
    c: Cursor,
    m: Counts,
    p: Progress,
    action: Action,
    events: &mut [u32],
    errors: &mut [u32],
) -> TableTurn
    requires { Read s.now t c × (action ≡ action_of p.state t.kind) × Irregular action }
    ensures { TurnsAt s.now (span head.start head.end) t c p (bufs events.old errors.old m) events.new errors.new result }
{
    match action {
        Action::Eof => {
            let n = eof(head, t, m, events, errors);
            over(c, n, p)
        }
        Action::ExtraComma => {
            let n = refuse(m, EXTRA_COMMA_IN_INLINE_TABLE, p, head, t, events, errors);
            again(c, n, p)
        }
        Action::EmptyKey => {
            let n = equals_without_key(t, m, events);
            read(c, n, State::NeedsValue)
        }
        Action::ExtraAssignment => {
            let n = refuse(m, EXTRA_ASSIGNMENT, p, head, t, events, errors);
            again(c, n, p)
        }
        Action::KeylessArray => {
            let w = keyless_array(s, head, t, c, m, p, events, errors);
            again_walk(w, p)
        }
        Action::KeylessTable => {
            let w = keyless_table(s, head, t, c, m, p, events, errors);
            again_walk(w, p)
        }
        Action::UnassignedArray => {
            let n = missing(m, MISSING_ASSIGNMENT, p, head, t, errors);
            opens(c, n, Next::OpenArray(t), State::NeedsComma)
        }
        Action::UnassignedTable => {
            let n = missing(m, MISSING_ASSIGNMENT, p, head, t, errors);
            opens(c, n, Next::OpenTable(t), State::NeedsComma)
        }
        Action::UnassignedScalar => {
            let w = unassigned_scalar(s, head, t, c, m, p, events, errors);
            read_walk(w, State::NeedsComma)
        }
        Action::InvalidElement => {
            let n = refuse(m, INVALID_INLINE_TABLE_ELEMENT, p, head, t, events, errors);
            again(c, n, p)
        }
        Action::ArrayWithoutOpen => {
            let n = without_open(m, Bracket::Square, t, events, errors);
            read(c, n, State::NeedsComma)
        }
        Action::KeyWithoutComma => {
            let w = key_without_comma(s, head, t, c, m, p, events, errors);
            read_walk(w, State::NeedsEquals)
        }
        _ => {
            let w = dot_without_comma(s, head, t, c, m, p, events, errors);
            read_walk(w, State::NeedsEquals)
        }
    }
}
