// The pieces of a run, one after the other: what is wrong by its events alone.
ghost use Rattle.std.specs.Prelude.{◌/◌, ◌≤◌, length};
ghost use Rattle.rules.specs.Answer.{event_size};
ghost use Rattle.pieces.specs.Finding.{Skips, Finds};

use crate::messages::TEXT_SKIPPED;
use crate::sorts::{Sort, sort_at};
use rules::answer::EVENT_WORDS;

// What is wrong: a message, and the span it is about.
#[derive(Clone, Copy)]
pub struct Piece {
    pub message: u32,
    pub start: u32,
    pub end: u32,
}

// Where skipped text ends, and the event behind it.
#[derive(Clone, Copy)]
pub struct Skip {
    pub end: u32,
    pub next: usize,
}

// On with skipped text that has come to `end`, from event i on.
fn skip_on(events: &[u32], i: usize, end: u32) -> Skip
    requires { i ≤ length events.now / event_size }
    ensures { Skips (length events.now / event_size) events.now i end result }
{
    let n = events.len() / EVENT_WORDS;
    let mut last = end;
    for at in i..n {
        match sort_at(events, at) {
            Sort::Skipped => last = events[at * EVENT_WORDS + 3],
            Sort::Blank => {}
            Sort::Sound | Sort::Wrong(_) => {
                return Skip {
                    end: last,
                    next: at,
                };
            }
        }
    }
    Skip { end: last, next: n }
}

// The first piece from event i on, and the event behind it, if there is one. Words behind the last whole event do not count.
pub fn next_piece(events: &[u32], i: usize) -> Option<(Piece, usize)>
    requires { i ≤ length events.now / event_size }
    ensures { Finds (length events.now / event_size) events.now i result }
{
    for at in i..events.len() / EVENT_WORDS {
        let start = events[at * EVENT_WORDS + 2];
        let end = events[at * EVENT_WORDS + 3];
        match sort_at(events, at) {
            Sort::Skipped => {
                let skip = skip_on(events, at + 1, end);
                return Some((
                    Piece {
                        message: TEXT_SKIPPED,
                        start,
                        end: skip.end,
                    },
                    skip.next,
                ));
            }
            Sort::Wrong(message) => {
                return Some((
                    Piece {
                        message,
                        start,
                        end,
                    },
                    at + 1,
                ));
            }
            Sort::Blank | Sort::Sound => {}
        }
    }
    None
}
