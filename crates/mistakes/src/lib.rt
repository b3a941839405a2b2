// The list of mistakes: the error records of a run, and what its events show that no record accounts for.
#![tactic(auto)]

pub mod listing;

ghost use Rattle.std.specs.Prelude.{◌≡◌};
ghost use Rattle.token.specs.Tokens.{all_tokens};
ghost use Rattle.token.specs.Check.{checked};
ghost use Rattle.mistake_rules.specs.Outcome.{listed_held, Lists};

use crate::listing::list_mistakes;
use checks::check::check;
use mistake_rules::answer::Listed;
use rules::answer::{Answer, ERROR_WORDS, EVENT_WORDS};
use token::refusal::Refusal;

fn unlisted(refusal: u32, place: usize) -> Listed
    ensures { result ≡ record { refusal = refusal; place = place; mistakes = 0 } }
{
    Listed {
        refusal,
        place,
        mistakes: 0,
    }
}

// The mistakes of a run that was not refused, over a list that is known to pass the check.
pub fn mistakes_of(
    s: &[u8],
    base: u32,
    answer: Answer,
    events: &[u32],
    errors: &[u32],
    mistakes: &mut [u32],
) -> Listed
    requires { checked s.now base ≡ Ok tt }
    ensures { record { answer = result; buffer = mistakes.new } ≡ listed_held (all_tokens s.now base) (record { answer = answer; events = events.now; errors = errors.now }) mistakes.old }
{
    if events.len() / EVENT_WORDS < answer.events {
        return unlisted(Refusal::Events as u32, 0);
    }
    if errors.len() / ERROR_WORDS < answer.errors {
        return unlisted(Refusal::Errors as u32, 0);
    }
    let room = mistakes.len() / ERROR_WORDS;
    let found = list_mistakes(
        s,
        base,
        &events[..answer.events * EVENT_WORDS],
        &errors[..answer.errors * ERROR_WORDS],
        mistakes,
    );
    if room < found {
        return Listed {
            refusal: Refusal::Mistakes as u32,
            place: 0,
            mistakes: found,
        };
    }
    Listed {
        refusal: 0,
        place: 0,
        mistakes: found,
    }
}

// The mistakes of a run: any records and base, any answer with any words, and any buffer may be given.
pub fn mistakes(
    s: &[u8],
    base: u32,
    answer: Answer,
    events: &[u32],
    errors: &[u32],
    mistakes: &mut [u32],
) -> Listed
    ensures { Lists s.now base (record { answer = answer; events = events.now; errors = errors.now }) mistakes.old mistakes.new result }
{
    let refusal = answer.refusal;
    if refusal != 0 {
        let place = answer.place;
        return unlisted(refusal, place);
    }
    match check(s, base) {
        Ok(()) => mistakes_of(s, base, answer, events, errors, mistakes),
        Err(refused) => unlisted(refused.refusal.number(), refused.place),
    }
}
