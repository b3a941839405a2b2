// Whether a run was quiet, by its answer and its event words.
ghost use Rattle.std.specs.Prelude.{◌≡◌, true, ◌↔◌, ◌*◌, ◌≤◌, length};
ghost use Rattle.rules.specs.Answer.{event_size};
ghost use Rattle.quiet.specs.Runs.{NoneEmpty, QuietAnswer};

use rules::answer::{Answer, EVENT_WORDS};

// Whether none of the first n events has an empty span. Word 2 of an event is its start, word 3 its end.
fn none_empty(events: &[u32], n: usize) -> bool
    requires { n * event_size ≤ length events.now }
    ensures { (result ≡ true) ↔ NoneEmpty n events.now }
{
    for i in 0..n {
        if events[i * EVENT_WORDS + 2] == events[i * EVENT_WORDS + 3] {
            return false;
        }
    }
    true
}

// Whether a run was quiet: it was not refused, there is no error, and no event has an empty span. Any answer may be given with any words:
// a word that the buffer does not have counts as 0, so an event beyond the buffer is empty. Of one event the buffer may have just the start.
pub fn is_quiet(answer: Answer, events: &[u32]) -> bool
    ensures { (result ≡ true) ↔ QuietAnswer answer events.now }
{
    if answer.refusal != 0 || answer.errors != 0 {
        return false;
    }
    let n = answer.events;
    let whole = events.len() / EVENT_WORDS;
    if n <= whole {
        return none_empty(events, n);
    }
    let start = whole * EVENT_WORDS + 2;
    if whole + 1 < n || events.len() <= start || events[start] == 0 {
        return false;
    }
    none_empty(events, whole)
}
