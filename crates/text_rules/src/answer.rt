// What the joined entry answers.

// The refusal's number (0 if none) and its place; where the tokens start; how many records, events and errors there are. C gets
// the number, and `text_room_is_enough` speaks of it.
#[derive(Clone, Copy)]
pub struct TextAnswer {
    pub refusal: u32,
    pub place: usize,
    pub base: u32,
    pub records: usize,
    pub events: usize,
    pub errors: usize,
}
