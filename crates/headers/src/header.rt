// A header, and the kinds of events that begin and end one.
ghost use Rattle.std.specs.Prelude.{◌≡◌, ◌*◌, ◌<◌, length, get_or};
ghost use Rattle.rules.specs.Answer.{event_size};
ghost use Rattle.headers.specs.Headers.{opens_header, closing};

use event_kinds::{ARRAY_TABLE_CLOSE, ARRAY_TABLE_OPEN, STD_TABLE_CLOSE, STD_TABLE_OPEN};
use rules::answer::EVENT_WORDS;

// The place of its open event, how many key parts it has, whether it is an array table, and how many events there are from that one up to the
// next header or the end.
#[derive(Clone, Copy)]
pub struct Header {
    pub place: usize,
    pub parts: usize,
    pub array: bool,
    pub events: usize,
}

// The kind of event i: word 0 of its four.
pub fn kind_at(events: &[u32], i: usize) -> u32
    requires { i * event_size < length events.now }
    ensures { result ≡ get_or events.now (i * event_size) 0 }
{
    events[i * EVENT_WORDS]
}

pub fn opens_header(kind: u32) -> bool
    ensures { result ≡ opens_header kind }
{
    kind == STD_TABLE_OPEN || kind == ARRAY_TABLE_OPEN
}

// The kind of the event that closes a header.
pub fn closing(array: bool) -> u32
    ensures { result ≡ closing array }
{
    if array {
        ARRAY_TABLE_CLOSE
    } else {
        STD_TABLE_CLOSE
    }
}
