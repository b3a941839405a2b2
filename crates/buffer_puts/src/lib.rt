// Entry i of a lent buffer, if there is room for it; and numbers that stop at a bound.
#![tactic(auto)]

ghost use Rattle.std.specs.Prelude.{◌≡◌, ◌+◌, ◌*◌, ◌≤◌, length};
ghost use Rattle.std.proofs.lemmas.List.Edits.{sets};
ghost use Rattle.buffer_puts.specs.Puts.{more, capped, put_event, put_error};

use rules::answer::{ERROR_WORDS, EVENT_WORDS};

// One more. The rules' lists never come near the bound, so that the counts are exact; it spares every contract a bound.
#[tactic(auto, unfolding(crate::specs::Puts::more))]
pub fn one_more(i: usize) -> usize
    ensures { result ≡ more i }
{
    if i < 2147483647 { i + 1 } else { i }
}

// Entry i of a buffer of entries of W words, which has room for it.
fn write<const W: usize>(buffer: &mut [u32], i: usize, words: [u32; W])
    requires { i * W + W ≤ length buffer.old }
    ensures { buffer.new ≡ sets buffer.old (i * W) words.entry }
{
    let b = i * W;
    buffer[b..b + W].copy_from_slice(&words);
}

#[tactic(auto, unfolding(crate::specs::Puts::put_event))]
pub fn put_event(events: &mut [u32], i: usize, kind: u32, encoding: u32, start: u32, end: u32)
    ensures { events.new ≡ put_event events.old i kind encoding start end }
{
    if i < events.len() / EVENT_WORDS {
        write(events, i, [kind, encoding, start, end]);
    }
}

#[tactic(auto, unfolding(crate::specs::Puts::put_error))]
pub fn put_error(
    errors: &mut [u32],
    i: usize,
    message: u32,
    expected: u32,
    from: u32,
    to: u32,
    start: u32,
    end: u32,
    mark: u32,
)
    ensures { errors.new ≡ put_error errors.old i message expected «from» to start end mark }
{
    // As `i < errors.len() / ERROR_WORDS`, without a division, which would be made ahead of every loop that has an error to report.
    if i < errors.len() && i * ERROR_WORDS + 6 < errors.len() {
        write(errors, i, [message, expected, from, to, start, end, mark]);
    }
}

// The number of a record. A list never has so many that the bound is reached; it spares every contract a bound.
#[tactic(auto, unfolding(crate::specs::Puts::capped))]
pub fn capped(n: usize) -> u32
    ensures { result ≡ capped n }
{
    if n < 2147483647 { n as u32 } else { 2147483647 }
}
