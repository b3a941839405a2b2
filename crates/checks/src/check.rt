// The check of a list: refusals 1 to 5, in their order and with their places. What it lets through is what a cursor needs.
ghost use Rattle.std.specs.Prelude.{◌≡◌, ◌+◌, ◌<◌, ◌≤◌};
ghost use Rattle.token.specs.Limits.{max_records, max_end};
ghost use Rattle.token.specs.Records.{count};
ghost use Rattle.token.specs.Check.{checked_from, passed, checked};

use record_checks::{all_fit, lengths_of, record_refusal};
use token::checked::{MAX_END, MAX_RECORDS, Refused};
use token::record::{kind_number_at, length_at};
use token::refusal::Refusal;

// How many records `all_pass` asks in a turn. The compiler writes them out one after another, so that they share what the loop itself
// costs: its counter and its test.
const A_TURN: usize = 4;

// Whether every record passes. The records are asked without regard to where they end, and only the last end is held to the limit:
// the ends rise, so that this decides the same, and is quicker. The lengths are summed before the records are asked, so that also where
// one does not fit it is known of those before it that their sum is small.
fn all_pass(s: &[u8], from: usize) -> bool
    requires s_bound { count s.now ≤ max_records }
    requires from_le_max_end { «from» ≤ max_end }
    ensures { result ≡ passed (checked_from (count s.now) s.now 0 «from») }
{
    let n = s.len() / 6;
    let turns = n / A_TURN;
    let mut end = from;
    for turn in 0..turns {
        let lengths = lengths_of(s, turn * A_TURN, A_TURN);
        if !all_fit(s, turn * A_TURN, A_TURN) {
            return false;
        }
        end += lengths;
    }
    let done = turns * A_TURN;
    let lengths = lengths_of(s, done, n % A_TURN);
    all_fit(s, done, n % A_TURN) && end + lengths <= MAX_END
}

// That every record passes, or the first that is refused.
#[tactic(auto, using(token::specs::CheckLaws::from_passed, token::specs::CheckLaws::from_refused, token::specs::CheckLaws::from_end, token::specs::CheckLaws::record_passed))]
fn first_refused(s: &[u8], from: usize) -> Result<(), Refused>
    requires { «from» ≤ max_end }
    ensures { result ≡ checked_from (count s.now) s.now 0 «from» }
{
    let n = s.len() / 6;
    let mut place = from;
    for i in 0..n {
        let length = length_at(s, i);
        let end = place + length as usize;
        if let Some(refusal) = record_refusal(kind_number_at(s, i), length, end) {
            return Err(Refused { refusal, place: i });
        }
        place = end;
    }
    Ok(())
}

pub fn check(s: &[u8], base: u32) -> Result<(), Refused>
    ensures { result ≡ checked s.now base }
{
    let n = s.len() / 6;
    if s.len() % 6 != 0 {
        return Err(Refused {
            refusal: Refusal::PartialRecord,
            place: n,
        });
    }
    if MAX_RECORDS < n {
        return Err(Refused {
            refusal: Refusal::Records,
            place: MAX_RECORDS,
        });
    }
    let from = base as usize;
    if MAX_END < from {
        return Err(Refused {
            refusal: Refusal::Bytes,
            place: 0,
        });
    }
    if all_pass(s, from) {
        return Ok(());
    }
    first_refused(s, from)
}
