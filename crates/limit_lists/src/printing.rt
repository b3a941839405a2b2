// What is printed of an answer.
use rules::answer::{Answer, EVENT_WORDS};
use std::io;

pub fn print_answer(rt: &impl Print, a: Answer) -> io::Result<()> {
    print!(rt;
        ": refusal {} place {} events {} errors {}",
        a.refusal, a.place, a.events, a.errors
    )
}

// The last of so many events that were stored, as its four words.
pub fn print_last(rt: &impl Print, events: &[u32], stored: usize) -> io::Result<()> {
    if stored == 0 {
        return println!(rt; ", no event");
    }
    if stored > events.len() / EVENT_WORDS {
        return Ok(());
    }
    let at = EVENT_WORDS * (stored - 1);
    print!(rt; ", last event")?;
    for word in &events[at..at + EVENT_WORDS] {
        print!(rt; " {word}")?;
    }
    println!(rt)
}
