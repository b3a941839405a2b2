// Arrays and inline tables open one another; the levels still allowed fall at each opening.
// What is handed to a function lies in memory from then on, so copies are handed on, and the loops' own cursor and counts stay in
// registers.
ghost use Rattle.std.specs.Prelude.{◌≡◌, false};
ghost use Rattle.token.specs.Tokens.{Good, tokens_at};
ghost use Rattle.rules.specs.Nest.{on_array_open, on_inline_table_open};
ghost use Rattle.output.specs.Pour.{bufs};
ghost use Rattle.nest.specs.Nested.{Nested, walk_of};

use array_parts::turn::Next;
use array_runs::turns::array_turns;
use inline_actions::action_table;
use inline_turns::inline_table::inline_table_turn;
use openings::{array_open, table_open};
use output::emitting::{Counts, Walk};
use rules::array::ArrayState;
use rules::inline_table::{Progress, State};
use rules::options::Settings;
use token::cursor::{Cursor, Token};

// How many arrays that wait for one in them to end are kept in one walk. The next one is walked by a call, so that sixteen in seventeen
// levels of `[` cost none.
const HELD: usize = 16;

// One more level than is allowed was opened: where the walk stopped, just behind that level's bracket, and the counts there.
#[derive(Clone, Copy)]
pub struct TooDeep {
    pub walk: Walk,
}

// Where a walk ended, or was refused.
pub fn walk_of(v: Result<Walk, TooDeep>) -> Walk
    ensures { result ≡ walk_of v }
{
    match v {
        Ok(w) => w,
        Err(refused) => refused.walk,
    }
}

#[cycle(opening)]
pub fn on_array_open(
    s: &[u8],
    head: Token,
    c: Cursor,
    m: Counts,
    settings: Settings,
    events: &mut [u32],
    errors: &mut [u32],
) -> Result<Walk, TooDeep>
    requires { Good s.now c }
    ensures { Nested s.now (on_array_open settings.levels head.start head.end (tokens_at s.now c)) c (bufs events.old errors.old m) events.new errors.new result }
{
    let options = settings.options;
    if settings.levels == 0 {
        return Err(TooDeep {
            walk: Walk { cur: c, n: m },
        });
    }
    let mut n = array_open(events, m, head);
    let mut cur = c;
    let mut state = ArrayState::NeedsValue;
    let mut left = settings.levels - 1;
    let mut inner = head;
    let mut starts = [0u32; HELD];
    let mut ends = [0u32; HELD];
    let mut depth: usize = 0;
    loop {
        let a = array_turns(s, inner, cur, n, state, events, errors);
        let turn = a.turn;
        cur = turn.cur;
        n = turn.n;
        state = a.state;
        let x = turn.next;
        match x {
            Next::Again => {}
            Next::Over => {
                if depth == 0 {
                    return Ok(Walk { cur, n });
                }
                depth -= 1;
                left += 1;
                inner.start = starts[depth];
                inner.end = ends[depth];
                state = ArrayState::NeedsComma;
            }
            Next::OpenArray(t) => {
                if left == 0 {
                    return Err(TooDeep {
                        walk: Walk { cur, n },
                    });
                }
                if depth < HELD {
                    starts[depth] = inner.start;
                    ends[depth] = inner.end;
                    depth += 1;
                    left -= 1;
                    inner = t;
                    n = array_open(events, n, t);
                    state = ArrayState::NeedsValue;
                } else {
                    let list = s;
                    let from = cur;
                    let sofar = n;
                    let inside = Settings {
                        levels: left,
                        options,
                    };
                    let v = on_array_open(list, t, from, sofar, inside, events, errors)?;
                    cur = v.cur;
                    n = v.n;
                }
            }
            Next::OpenTable(t) => {
                let list = s;
                let from = cur;
                let sofar = n;
                let inside = Settings {
                    levels: left,
                    options,
                };
                let v = on_inline_table_open(list, t, from, sofar, inside, events, errors)?;
                cur = v.cur;
                n = v.n;
            }
        }
    }
}

#[cycle(opening)]
pub fn on_inline_table_open(
    s: &[u8],
    head: Token,
    c: Cursor,
    m: Counts,
    settings: Settings,
    events: &mut [u32],
    errors: &mut [u32],
) -> Result<Walk, TooDeep>
    requires { Good s.now c }
    ensures { Nested s.now (on_inline_table_open settings.levels head.start head.end (tokens_at s.now c)) c (bufs events.old errors.old m) events.new errors.new result }
{
    let levels = settings.levels;
    let options = settings.options;
    if levels == 0 {
        return Err(TooDeep {
            walk: Walk { cur: c, n: m },
        });
    }
    let mut n = table_open(events, m, head);
    // By its parts, so that the compiler hands it over in memory: in two words its place would have to be taken out at each turn.
    let mut cur = Cursor {
        at: c.at,
        place: c.place,
        base: c.base,
    };
    let mut p = Progress {
        state: State::NeedsKey,
        empty: true,
    };
    let actions = action_table();
    let opened = c.at;
    let inside = Settings {
        levels: levels - 1,
        options,
    };
    loop {
        let a = inline_table_turn(s, head, opened, cur, n, p, &actions, events, errors);
        let turn = a.turn;
        cur = turn.cur;
        n = turn.n;
        p = a.state;
        let x = turn.next;
        match x {
            Next::Again => {}
            Next::Over => {
                return Ok(Walk { cur, n });
            }
            Next::OpenArray(t) => {
                let list = s;
                let from = cur;
                let sofar = n;
                let v = on_array_open(list, t, from, sofar, inside, events, errors)?;
                cur = v.cur;
                n = v.n;
            }
            Next::OpenTable(t) => {
                let list = s;
                let from = cur;
                let sofar = n;
                let v = on_inline_table_open(list, t, from, sofar, inside, events, errors)?;
                cur = v.cur;
                n = v.n;
            }
        }
    }
}
