// Whether a key of a run is a multi-line string, by its event words. The Rust reads such a key with no report, but it is no key of TOML 1.0.0.
#![tactic(auto)]

ghost use Rattle.std.specs.Prelude.{◌≡◌, true, ◌↔◌, ◌/◌, length};
ghost use Rattle.rules.specs.Answer.{event_size};
ghost use Rattle.fitting.specs.Quiet.{multi_line_key};
ghost use Rattle.quiet.specs.Runs.{NoneMultiLine, QuietAnswer, SingleLineAnswer};

use event_kinds::{ML_BASIC_STRING, ML_LITERAL_STRING, SIMPLE_KEY};
use quiet::run::is_quiet;
use rules::answer::{Answer, EVENT_WORDS};

// Whether an event of this kind and encoding, its first two words, is such a key.
pub fn is_multi_line_key(kind: u32, encoding: u32) -> bool
    ensures { result ≡ multi_line_key kind encoding }
{
    kind == SIMPLE_KEY && (encoding == ML_LITERAL_STRING || encoding == ML_BASIC_STRING)
}

// Whether none of the events is one. Words behind the last whole event do not count.
fn none_multi_line(events: &[u32]) -> bool
    ensures { (result ≡ true) ↔ NoneMultiLine (length events.now / event_size) events.now }
{
    for i in 0..events.len() / EVENT_WORDS {
        if is_multi_line_key(events[i * EVENT_WORDS], events[i * EVENT_WORDS + 1]) {
            return false;
        }
    }
    true
}

// Whether no key of a run is a multi-line string. Any answer may be given with any words: a word that the buffer does not have counts as 0, so
// an event beyond the buffer is no key. Of one event the buffer may have just the first two words.
pub fn has_no_multi_line_key(answer: Answer, events: &[u32]) -> bool
    ensures { (result ≡ true) ↔ SingleLineAnswer answer events.now }
{
    let whole = events.len() / EVENT_WORDS;
    if answer.events <= whole {
        return none_multi_line(&events[..answer.events * EVENT_WORDS]);
    }
    let kind = whole * EVENT_WORDS;
    if kind + 1 < events.len() && is_multi_line_key(events[kind], events[kind + 1]) {
        return false;
    }
    none_multi_line(events)
}

// Both at once: whether the run was quiet, and no key is a multi-line string.
pub fn is_quiet_without_multi_line_key(answer: Answer, events: &[u32]) -> bool
    ensures { (result ≡ true) ↔ (QuietAnswer answer events.now × SingleLineAnswer answer events.now) }
{
    is_quiet(answer, events) && has_no_multi_line_key(answer, events)
}
