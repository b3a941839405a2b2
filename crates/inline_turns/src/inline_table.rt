// Inline tables: one turn.
ghost use Rattle.std.specs.Prelude.{◌≡◌, ◌-◌, ◌≤◌};
ghost use Rattle.token.specs.Records.{count};
ghost use Rattle.token.specs.Tokens.{Good, tokens_at};
ghost use Rattle.rules.specs.Out.{span};
ghost use Rattle.rules.specs.InlineTable.{inline_table_turn};
ghost use Rattle.output.specs.Pour.{bufs};
ghost use Rattle.array_parts.specs.Turning.{Turned};
ghost use Rattle.inline_actions.specs.Actions.{action_table};

use crate::irregular::irregular_turn;
use crate::table_turn::{TableTurn, opens, read, read_walk};
use array_parts::turn::{Next, again, again_walk, over, unclosed};
use inline_actions::action_at;
use inline_steps::{close, comment, newline};
use output::emitting::{Counts, emit};
use output::expected::CLOSE_CURLY;
use output::message::UNCLOSED_INLINE_TABLE;
use rules::event::Event;
use rules::inline_table::{Action, Progress, State};
use scalars::scalar::on_scalar;
use table_keys::{table_dot, table_key};
use token::cursor::{Cursor, Token};

// One turn in the inline table that `head` opened, of which `opened` is the first record behind it. The table of actions is lent, since the turns of a
// loop share one. The arms here are what a well-formed table has; what is wrong in one has a function of its own.
pub fn inline_table_turn(
    s: &[u8],
    head: Token,
    opened: usize,
    c: Cursor,
    m: Counts,
    p: Progress,
    actions: &[[u8; 16]; 4],
    events: &mut [u32],
    errors: &mut [u32],
) -> TableTurn
    requires { Good s.now c × (actions.now ≡ action_table) × (opened ≤ count s.now) }
    ensures { Turned Progress s.now (λ nest loop. inline_table_turn (span head.start head.end) (count s.now - opened) nest loop p (tokens_at s.now c)) c (bufs events.old errors.old m) events.new errors.new result.turn.cur result.turn.n result.state result.turn.next }
{
    let Some((t, past)) = c.next(s) else {
        let n = unclosed(
            s,
            head,
            c,
            m,
            UNCLOSED_INLINE_TABLE,
            CLOSE_CURLY,
            events,
            errors,
        );
        return over(c, n, p);
    };
    let action = action_at(actions, p.state, t.kind);
    match action {
        Action::Whitespace => {
            let n = emit(events, m, Event::Whitespace, t.start, t.end);
            again(past, n, p)
        }
        Action::Comment => {
            let w = comment(s, head, t, past, m, events, errors);
            again_walk(w, p)
        }
        Action::Newline => {
            let n = newline(head, t, m, events, errors);
            again(past, n, p)
        }
        Action::ValueSep => {
            let n = emit(events, m, Event::ValueSep, t.start, t.end);
            let q = Progress {
                state: State::NeedsKey,
                empty: p.empty,
            };
            again(past, n, q)
        }
        Action::KeyValSep => {
            let n = emit(events, m, Event::KeyValSep, t.start, t.end);
            read(past, n, State::NeedsValue)
        }
        Action::Array => opens(past, m, Next::OpenArray(t), State::NeedsComma),
        Action::Table => opens(past, m, Next::OpenTable(t), State::NeedsComma),
        Action::Scalar => {
            let w = on_scalar(s, t, past, m, events, errors);
            read_walk(w, State::NeedsComma)
        }
        Action::Close => {
            let n = close(c, opened, head, t, m, p, events, errors);
            over(past, n, p)
        }
        Action::Key => {
            let w = table_key(s, t, past, m, events, errors);
            read_walk(w, State::NeedsEquals)
        }
        Action::DotKey => {
            let w = table_dot(s, t, past, m, events, errors);
            read_walk(w, State::NeedsEquals)
        }
        _ => irregular_turn(s, head, t, past, m, p, action, events, errors),
    }
}
