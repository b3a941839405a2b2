// The yes, from a run of the document entry that had no room for errors: by its answer, and the events that it left.
ghost use Rattle.std.specs.Prelude.{◌≡◌, true, ◌↔◌};
ghost use Rattle.token.specs.Tokens.{all_tokens};
ghost use Rattle.fitting.specs.Premises.{Regular};
ghost use Rattle.judging.specs.JudgedRuns.{JudgesRun};

use crate::verdict::{Verdict, answered, is_unjudged};
use multi_line_keys::is_quiet_without_multi_line_key;
use regular::is_regular;
use rules::answer::{Answer, EVENT_WORDS};
use token::refusal::Refusal;

// Whether the list is regular. Where that is known, because the caller wrote the records itself, it is not asked.
fn known_or_regular(known: bool, records: &[u8], base: u32) -> bool
    requires { known ≡ true → Regular (all_tokens records.now base) }
    ensures { (result ≡ true) ↔ Regular (all_tokens records.now base) }
{
    known || is_regular(records, base)
}

// A list with an error does not fit, nor does one with a multi-line key. Room for as many events as there are records is wanted, which is as many
// as a list that fits can have; where there is less, the list is not judged, and that is refusal 7.
pub fn judge_run(records: &[u8], base: u32, known: bool, answer: Answer, events: &[u32]) -> Verdict
    requires { known ≡ true → Regular (all_tokens records.now base) }
    ensures { JudgesRun records.now base answer events.now result }
{
    let refusal = answer.refusal;
    if is_unjudged(refusal) {
        let place = answer.place;
        return answered(false, refusal, place);
    }
    if events.len() / EVENT_WORDS < records.len() / 6 {
        return answered(false, Refusal::Events as u32, 0);
    }
    let regular = known_or_regular(known, records, base);
    if regular {
        let quiet = is_quiet_without_multi_line_key(answer, events);
        return answered(quiet, 0, 0);
    }
    answered(false, 0, 0)
}
