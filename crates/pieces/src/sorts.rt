// The sort of an event: whether it is sound, and if not, what is wrong with it.
ghost use Rattle.std.specs.Prelude.{◌≡◌, ◌+◌, ◌*◌, ◌≤◌, length};
ghost use Rattle.rules.specs.Answer.{event_size};
ghost use Rattle.pieces.specs.Pieces.{sort_of, event_at};

use crate::messages::{MULTI_LINE_STRING, missing};
use event_kinds::{ERROR, WHITESPACE};
use multi_line_keys::is_multi_line_key;
use rules::answer::EVENT_WORDS;

// Skipped text; whitespace; wrong, with its message; anything else.
#[derive(Clone, Copy)]
pub enum Sort {
    Skipped,
    Blank,
    Sound,
    Wrong(u32),
}

// By the four words of an event.
fn sort_of(kind: u32, encoding: u32, start: u32, end: u32) -> Sort
    ensures { result ≡ sort_of (record { kind = kind; encoding = encoding; start = start; end = end }) }
{
    if kind == ERROR {
        return Sort::Skipped;
    }
    if start == end {
        return Sort::Wrong(missing(kind));
    }
    if kind == WHITESPACE {
        return Sort::Blank;
    }
    if is_multi_line_key(kind, encoding) {
        return Sort::Wrong(MULTI_LINE_STRING);
    }
    Sort::Sound
}

// The sort of event i.
pub fn sort_at(events: &[u32], i: usize) -> Sort
    requires { (i + 1) * event_size ≤ length events.now }
    ensures { result ≡ sort_of (event_at i events.now) }
{
    let b = i * EVENT_WORDS;
    sort_of(events[b], events[b + 1], events[b + 2], events[b + 3])
}
