// How far a text is well-formed UTF-8.
#![tactic(auto)]

pub mod theorems;

ghost use Rattle.std.specs.Prelude.{◌≡◌, cond, ◌<◌, ◌≤◌, ◌+◌, length, drop};
ghost use Rattle.places.specs.Places.{all_of, Passed};
ghost use Rattle.utf8_sequences.specs.Utf8.{valid_up_to};
ghost use Rattle.utf8_sequences.specs.Steps.{is_ascii, Stepped};

use utf8_sequences::sequence_at;

// Whether the thirty-two bytes from `at` on are ASCII. They are counted, so that the compiler takes them at once.
fn thirty_two_ascii(text: &[u8], at: usize) -> bool
    requires { at + 32 ≤ length text.now }
    ensures { result ≡ all_of is_ascii 32 (drop at text.now) }
{
    let mut count: u8 = 0;
    for k in 0..32 {
        count += u8::from(text[at + k].is_ascii());
    }
    count == 32
}

// Past ASCII bytes, thirty-two at a time.
fn past_ascii_by_thirty_two(text: &[u8], at: usize) -> usize
    requires { at ≤ length text.now }
    ensures { Passed is_ascii text.now at result }
{
    let mut i = at;
    while 32 <= text.len() - i {
        if !thirty_two_ascii(text, i) {
            return i;
        }
        i += 32;
    }
    i
}

// Past all ASCII bytes: what is left of them behind these is one by one.
fn past_ascii(text: &[u8], at: usize) -> usize
    requires { at ≤ length text.now }
    ensures { Passed is_ascii text.now at result }
{
    // A `for` takes two instructions more for each run of ASCII: 2 of a hundred in a text of umlauts.
    let mut i = past_ascii_by_thirty_two(text, at);
    while i < text.len() {
        if !text[i].is_ascii() {
            return i;
        }
        i += 1;
    }
    i
}

// Past ASCII bytes, or past one longer sequence; where none starts, `at` itself.
fn step(text: &[u8], at: usize) -> usize
    requires { at < length text.now }
    ensures { Stepped text.now at result }
{
    if text[at].is_ascii() {
        past_ascii(text, at + 1)
    } else {
        at + sequence_at(text, at)
    }
}

// A turn goes on by as many bytes as it has passed.
// The place of the first byte of the first ill-formed sequence, or the length of a well-formed text.
pub fn valid_up_to(text: &[u8]) -> usize
    ensures { result ≡ valid_up_to text.now }
{
    let mut i = 0;
    while i < text.len() {
        let next = step(text, i);
        if next == i {
            return i;
        }
        i = next;
    }
    i
}
