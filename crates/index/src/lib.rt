// The index of headers: for each table header of a quiet run the place of its open event, its key parts, whether it is an array table, and
// how many events it has.
#![tactic(auto)]

pub mod theorems;
pub mod walked;

ghost use Rattle.std.specs.Prelude.{◌≡◌, true, ◌↔◌, ◌++◌, ◌*◌, ◌/◌, length, drop};
ghost use Rattle.rules.specs.Answer.{event_size};
ghost use Rattle.headers.specs.Headers.{entry_size, headers_in, index_bytes};
ghost use Rattle.headers.specs.States.{fresh, Walkable};
ghost use Rattle.index.specs.Outcome.{Indexable, Indexes};

use crate::walked::walk;
use headers::counted::count_headers;
use headers::state::begin;
use index_entries::entry::ENTRY_SIZE;
use quiet::run::is_quiet;
use rules::answer::{Answer, EVENT_WORDS};
use token::checked::MAX_RECORDS;
use token::refusal::Refusal;

// A refusal's number or 0, how many headers there are, and how many bytes their index has, or would have. The number is what C gets, and what
// `index_outcome` speaks of.
#[derive(Clone, Copy)]
pub struct Indexed {
    pub refusal: u32,
    pub headers: usize,
    pub bytes: usize,
}

// Whether the words and the answer are those of a quiet run that can be indexed.
fn is_indexable(answer: Answer, events: &[u32]) -> bool
    ensures { (result ≡ true) ↔ Indexable answer events.now }
{
    answer.events <= events.len() / EVENT_WORDS
        && answer.events <= MAX_RECORDS
        && is_quiet(answer, events)
}

// The entries of the events' headers, which have room.
fn write_index(events: &[u32], index: &mut [u8])
    requires { Walkable fresh events.now index.old }
    ensures { index.new ≡ index_bytes (headers_in (length events.now / event_size) events.now) ++ drop (entry_size * length (headers_in (length events.now / event_size) events.now)) index.old }
{
    let mut state = begin();
    walk(&mut state, events, index);
}

fn answered(refusal: u32, headers: usize, bytes: usize) -> Indexed
    ensures { result ≡ record { refusal = refusal; headers = headers; bytes = bytes } }
{
    Indexed {
        refusal,
        headers,
        bytes,
    }
}

// The index of a run: any answer may be given with any words, and any buffer.
pub fn index(answer: Answer, events: &[u32], index: &mut [u8]) -> Indexed
    ensures { Indexes answer events.now index.old index.new result }
{
    if !is_indexable(answer, events) {
        return answered(Refusal::NotQuiet as u32, 0, 0);
    }
    let counted = &events[..answer.events * EVENT_WORDS];
    let headers = count_headers(counted);
    let bytes = ENTRY_SIZE * headers;
    if index.len() < bytes {
        return answered(Refusal::Index as u32, headers, bytes);
    }
    write_index(counted, index);
    answered(0, headers, bytes)
}
