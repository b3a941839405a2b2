// Turns of an array, up to one behind which a bracket opens or the array is over. The loop stands alone, so that what it needs at
// each turn stays in registers.
ghost use Rattle.token.specs.Tokens.{Good};
ghost use Rattle.rules.specs.Out.{span};
ghost use Rattle.output.specs.Pour.{bufs};
ghost use Rattle.array_runs.specs.Ran.{Ran};

use array_parts::turn::Next;
use array_turns::array::{ArrayTurn, array_turn};
use output::emitting::Counts;
use rules::array::ArrayState;
use token::cursor::{Cursor, Token};

pub fn array_turns(
    s: &[u8],
    head: Token,
    c: Cursor,
    m: Counts,
    begin: ArrayState,
    events: &mut [u32],
    errors: &mut [u32],
) -> ArrayTurn
    requires { Good s.now c }
    ensures { Ran s.now (span head.start head.end) begin c (bufs events.old errors.old m) events.new errors.new result }
{
    let mut cur = c;
    let mut n = m;
    let mut state = begin;
    loop {
        let a = array_turn(s, head, cur, n, state, events, errors);
        let turn = a.turn;
        let x = turn.next;
        match x {
            Next::Again => {
                cur = turn.cur;
                n = turn.n;
                state = a.state;
            }
            _ => {
                return a;
            }
        }
    }
}
