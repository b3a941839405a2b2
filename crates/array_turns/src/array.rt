// Arrays: one turn.
ghost use Rattle.std.specs.Prelude.{◌≡◌};
ghost use Rattle.token.specs.Tokens.{Good, tokens_at};
ghost use Rattle.rules.specs.Out.{span};
ghost use Rattle.rules.specs.Array.{array_turn};
ghost use Rattle.rules.specs.declared.array.ArrayState.{ArrayState};
ghost use Rattle.output.specs.Pour.{bufs};
ghost use Rattle.array_parts.specs.Turning.{Turned, Wants};

use array_parts::parts::{comma, missing_comma};
use array_parts::turn::{Next, StateTurn, again, again_walk, opening, over, unclosed};
use classes::array::in_array;
use lone_brackets::without_open;
use output::emitting::{Counts, emit, report_at};
use output::expected::{CLOSE_SQUARE, VALUE_OR_CLOSE_SQUARE};
use output::message::{UNCLOSED_ARRAY, UNEXPECTED_EQUALS_IN_ARRAY};
use rules::array::{ArrayState, InArray};
use rules::event::Event;
use rules::skipping::Bracket;
use scalars::scalar::on_scalar;
use skip_lines::skipping::on_comment;
use token::cursor::{Cursor, Token};

// A turn in an array, and what the array wants behind it.
pub type ArrayTurn = StateTurn<ArrayState>;

// One turn in the array that `head` opened.
pub fn array_turn(
    s: &[u8],
    head: Token,
    c: Cursor,
    m: Counts,
    state: ArrayState,
    events: &mut [u32],
    errors: &mut [u32],
) -> ArrayTurn
    requires { Good s.now c }
    ensures { Turned ArrayState s.now (λ nest loop. array_turn (span head.start head.end) nest loop state (tokens_at s.now c)) c (bufs events.old errors.old m) events.new errors.new result.turn.cur result.turn.n result.state result.turn.next × Wants result.turn.next result.state }
{
    let Some((t, past)) = c.next(s) else {
        let list = s;
        let from = c;
        let sofar = m;
        let n = unclosed(
            list,
            head,
            from,
            sofar,
            UNCLOSED_ARRAY,
            CLOSE_SQUARE,
            events,
            errors,
        );
        return over(c, n, state);
    };
    match in_array(t.kind) {
        InArray::Comment => {
            let list = s;
            let remark = t;
            let from = past;
            let sofar = m;
            let w = on_comment(list, remark, from, sofar, events, errors);
            again_walk(w, state)
        }
        InArray::Whitespace => {
            let n = emit(events, m, Event::Whitespace, t.start, t.end);
            again(past, n, state)
        }
        InArray::Newline => {
            let n = emit(events, m, Event::Newline, t.start, t.end);
            again(past, n, state)
        }
        InArray::Eof => {
            let i = report_at(errors, m, UNCLOSED_ARRAY, CLOSE_SQUARE, head, t);
            let n = emit(events, i, Event::ArrayClose, t.start, t.start);
            over(past, n, state)
        }
        InArray::Comma => {
            let n = comma(m, state, head, t, events, errors);
            again(past, n, ArrayState::NeedsValue)
        }
        InArray::Equals => {
            let i = report_at(
                errors,
                m,
                UNEXPECTED_EQUALS_IN_ARRAY,
                VALUE_OR_CLOSE_SQUARE,
                head,
                t,
            );
            let n = emit(events, i, Event::Error, t.start, t.end);
            again(past, n, state)
        }
        InArray::OpenCurly => {
            let n = missing_comma(m, state, head, t, events, errors);
            opening(past, n, Next::OpenTable(t), ArrayState::NeedsComma)
        }
        InArray::CloseCurly => {
            let h = missing_comma(m, state, head, t, events, errors);
            let n = without_open(h, Bracket::Curly, t, events, errors);
            again(past, n, ArrayState::NeedsComma)
        }
        InArray::OpenSquare => {
            let n = missing_comma(m, state, head, t, events, errors);
            opening(past, n, Next::OpenArray(t), ArrayState::NeedsComma)
        }
        InArray::CloseSquare => {
            let n = emit(events, m, Event::ArrayClose, t.start, t.end);
            over(past, n, state)
        }
        InArray::Scalar => {
            let h = missing_comma(m, state, head, t, events, errors);
            let w = on_scalar(s, t, past, h, events, errors);
            again_walk(w, ArrayState::NeedsComma)
        }
    }
}
