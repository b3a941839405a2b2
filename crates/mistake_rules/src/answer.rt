// What the listing answers.

// The refusal's number (0 if none), its place, and how many mistakes there are. C gets the number, and `Lists` speaks of it.
#[derive(Clone, Copy)]
pub struct Listed {
    pub refusal: u32,
    pub place: usize,
    pub mistakes: usize,
}
