// One sequence of UTF-8: how long it is, if it is well-formed.
#![tactic(auto)]

ghost use Rattle.std.specs.Prelude.{◌≡◌, [], ◌∷◌, cond, ◌<◌, ◌≤◌, ◌+◌, length, drop};
ghost use Rattle.places.specs.Places.{peeks};
ghost use Rattle.utf8_sequences.specs.Utf8.{from, within, tail, table, fits, sequence_of};

// Whether the byte at `at` is there, and from low to high.
#[tactic(auto, using(places::specs::PlaceLaws::peeks_here, places::specs::PlaceLaws::peeks_out))]
pub fn is_from(text: &[u8], at: usize, low: u8, high: u8) -> bool
    ensures { result ≡ peeks (within (from low high)) (drop at text.now) }
{
    at < text.len() && low <= text[at] && text[at] <= high
}

// The rest of a sequence of two bytes, of three, of four: the second byte is from low to high. 0 if it does not fit. Each is one
// condition: a const parameter would need a loop for one or two bytes.
#[tactic(auto, using(crate::specs::Utf8Laws::fits_one))]
pub fn two(text: &[u8], at: usize) -> usize
    ensures { result ≡ cond (fits (tail ∷ []) (drop at text.now)) 2 0 }
{
    if is_from(text, at, 128, 191) { 2 } else { 0 }
}

#[tactic(auto, using(crate::specs::Utf8Laws::fits_two))]
pub fn three(text: &[u8], at: usize, low: u8, high: u8) -> usize
    requires { at ≤ length text.now }
    ensures { result ≡ cond (fits (from low high ∷ tail ∷ []) (drop at text.now)) 3 0 }
{
    if is_from(text, at, low, high) && is_from(text, at + 1, 128, 191) {
        3
    } else {
        0
    }
}

#[tactic(auto, using(crate::specs::Utf8Laws::fits_three))]
pub fn four(text: &[u8], at: usize, low: u8, high: u8) -> usize
    requires { at ≤ length text.now }
    ensures { result ≡ cond (fits (from low high ∷ tail ∷ tail ∷ []) (drop at text.now)) 4 0 }
{
    if is_from(text, at, low, high)
        && is_from(text, at + 1, 128, 191)
        && is_from(text, at + 2, 128, 191)
    {
        4
    } else {
        0
    }
}

// How many bytes the sequence has that starts at `at`, or 0: an arm for each row of the table.
pub fn sequence_at(text: &[u8], at: usize) -> usize
    requires { at < length text.now }
    ensures { result ≡ sequence_of table (drop at text.now) }
{
    let second = at + 1;
    match text[at] {
        0..=127 => 1,
        194..=223 => two(text, second),
        224 => three(text, second, 160, 191),
        225..=236 => three(text, second, 128, 191),
        237 => three(text, second, 128, 159),
        238..=239 => three(text, second, 128, 191),
        240 => four(text, second, 144, 191),
        241..=243 => four(text, second, 128, 191),
        244 => four(text, second, 128, 143),
        _ => 0,
    }
}
