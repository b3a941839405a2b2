// What the entries begin with: the check. And what they end with: what is left behind the end, the places and lines that the walk left open, and the
// answer.
ghost use Rattle.std.specs.Prelude.{◌≡◌, Ok};
ghost use Rattle.token.specs.Check.{checked};
ghost use Rattle.token.specs.Tokens.{Good};
ghost use Rattle.nest.specs.Nested.{walk_of};
ghost use Rattle.entry_steps.specs.Answers.{Answered, Begins, Closed, answer_of};

use checks::check::check;
use line_numbers::numbering::number_errors;
use list_ends::eof;
use nest::nest::{TooDeep, walk_of};
use output::emitting::{Counts, Walk};
use rules::answer::{Answer, ERROR_WORDS, EVENT_WORDS};
use rules::options::Options;
use token::cursor::Cursor;
use token::refusal::Refusal;

// What an entry begins with: a cursor at the start of the list, and nothing counted; or the answer for a list that the check refuses.
pub fn begin(s: &[u8], base: u32) -> Result<(Cursor, Counts), Answer>
    ensures { Begins s.now base result }
{
    let none = Counts {
        events: 0,
        errors: 0,
    };
    match check(s, base) {
        Ok(()) => Ok((Cursor::new(base), none)),
        Err(refused) => Err(counted(refused.refusal.number(), refused.place, none)),
    }
}

// What is left behind the end, unless the walk was refused.
fn closing(
    s: &[u8],
    v: Result<Walk, TooDeep>,
    events: &mut [u32],
    errors: &mut [u32],
) -> Result<Walk, TooDeep>
    requires { Good s.now (walk_of v).cur }
    ensures { Closed s.now v events.old errors.old events.new errors.new result }
{
    let w = v?;
    Ok(eof(s, w.cur, w.n, events, errors))
}

// An answer with its counts.
fn counted(refusal: u32, place: usize, n: Counts) -> Answer
    ensures { result ≡ record { refusal = refusal; place = place; events = n.events; errors = n.errors } }
{
    Answer {
        refusal,
        place,
        events: n.events,
        errors: n.errors,
    }
}

// The answer of a walk: a level was refused at the record before the cursor; or the events or the errors do not fit; or all fits.
fn answer_of(v: Result<Walk, TooDeep>, event_room: usize, error_room: usize) -> Answer
    ensures { result ≡ answer_of v event_room error_room }
{
    match v {
        Err(TooDeep { walk }) => counted(
            Refusal::Depth as u32,
            walk.cur.at.saturating_sub(1),
            walk.n,
        ),
        Ok(Walk { n, .. }) => {
            if event_room < n.events {
                return counted(Refusal::Events as u32, 0, n);
            }
            if error_room < n.errors {
                return counted(Refusal::Errors as u32, 0, n);
            }
            counted(0, 0, n)
        }
    }
}

// What every entry ends with: what is left behind its walk, the places and lines that the walk left open, and the answer.
pub fn answered(
    s: &[u8],
    options: Options,
    w: Result<Walk, TooDeep>,
    events: &mut [u32],
    errors: &mut [u32],
) -> Answer
    requires good { Good s.now (walk_of w).cur }
    requires base_value { checked s.now (walk_of w).cur.base ≡ Ok tt }
    ensures { Answered options s.now w events.old errors.old events.new errors.new result }
{
    let base = walk_of(w).cur.base;
    let v = closing(s, w, events, errors);
    let n = walk_of(v).n;
    let mode = options.mode;
    number_errors(s, base, mode, n.errors, errors);
    answer_of(v, events.len() / EVENT_WORDS, errors.len() / ERROR_WORDS)
}
