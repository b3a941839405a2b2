// What an entry answers, and how many words of the two buffers an event and an error take.

pub const EVENT_WORDS: usize = 4;

pub const ERROR_WORDS: usize = 7;

// The refusal's number (0 if none), its place, and how many events and errors there are. C gets the number, and `room_is_enough` speaks of it.
#[derive(Clone, Copy)]
pub struct Answer {
    pub refusal: u32,
    pub place: usize,
    pub events: usize,
    pub errors: usize,
}
