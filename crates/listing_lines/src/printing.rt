// The lines of a listing, written to standard output.
ghost use Rattle.std.specs.Prelude.{◌≡◌, ◌*◌, ◌≤◌, get_or, length};
ghost use Rattle.rules.specs.Answer.{error_size, event_size};
ghost use Rattle.listing_lines.specs.Numbers.{Named};
ghost use Rattle.listing_lines.specs.Printable.{AllNamed, Printable};

use crate::naming::print_name;
use rules::answer::{Answer, ERROR_WORDS, EVENT_WORDS};
use std::io;

// Refusal 7, no room for the events, never comes here.
fn print_refusal(rt: &impl Print, refusal: u32, place: usize) -> io::Result<()>
    requires { refusal ≡ 7 → ⊥ }
{
    println!(rt; "refused {refusal} place {place}")
}

// An event: its name, start, end and encoding.
fn print_event(rt: &impl Print, event: &[u32]) -> io::Result<()>
    requires one_event { length event.now ≡ event_size }
    requires named { Named (get_or event.now 0 0) }
{
    print_name(rt, event[0])?;
    println!(rt; " {} {} {}", event[2], event[3], event[1])
}

// An error: its words in order, the line last.
fn print_error(rt: &impl Print, error: &[u32]) -> io::Result<()>
    requires { length error.now ≡ error_size }
{
    print!(rt; "error")?;
    for word in error {
        print!(rt; " {word}")?;
    }
    println!(rt)
}

// The first `count` events.
fn print_events(rt: &impl Print, words: &[u32], count: usize) -> io::Result<()>
    requires count_in_bounds { event_size * count ≤ length words.now }
    requires all_named { AllNamed words.now count }
{
    for event in words[..EVENT_WORDS * count].chunks_exact(EVENT_WORDS) {
        print_event(rt, event)?;
    }
    Ok(())
}

// The first `count` errors.
fn print_errors(rt: &impl Print, words: &[u32], count: usize) -> io::Result<()>
    requires { error_size * count ≤ length words.now }
{
    for error in words[..ERROR_WORDS * count].chunks_exact(ERROR_WORDS) {
        print_error(rt, error)?;
    }
    Ok(())
}

// An answer and what the buffers hold after it: a refusal is one line, else all events and then all errors are.
pub fn print_outcome(
    rt: &impl Print,
    answer: Answer,
    events: &[u32],
    errors: &[u32],
) -> io::Result<()>
    requires { Printable events.now errors.now answer }
{
    let refusal = answer.refusal;
    if refusal != 0 {
        return print_refusal(rt, refusal, answer.place);
    }
    println!(rt; "events {} errors {}", answer.events, answer.errors)?;
    print_events(rt, events, answer.events)?;
    print_errors(rt, errors, answer.errors)
}
