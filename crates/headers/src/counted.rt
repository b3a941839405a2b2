// How many headers there are.
ghost use Rattle.std.specs.Prelude.{◌≡◌, ◌/◌, length};
ghost use Rattle.rules.specs.Answer.{event_size};
ghost use Rattle.headers.specs.Headers.{headers_in};

use crate::header::{kind_at, opens_header};
use rules::answer::EVENT_WORDS;

// How many headers the events have. Words behind the last whole event do not count.
#[tactic(auto, using(crate::proofs::CountLaws::at_header, crate::proofs::CountLaws::at_other, crate::proofs::CountLaws::headers_end, crate::proofs::CountLaws::headers_start))]
pub fn count_headers(events: &[u32]) -> usize
    ensures { result ≡ length (headers_in (length events.now / event_size) events.now) }
{
    let mut found = 0;
    for i in 0..events.len() / EVENT_WORDS {
        if opens_header(kind_at(events, i)) {
            found += 1;
        }
    }
    found
}
