// What the entries' contracts amount to, as the contract of a function that does nothing.
ghost use Rattle.entry_steps.specs.Answers.{Determined};

// Two answers, each with the buffers that it leaves, that both meet an entry's contract for the same input are equal.
pub fn answers_are_determined(s: &[u8], base: u32, events: &[u32], errors: &[u32])
    ensures { Determined s.now base events.now errors.now }
{}
