// Looking through a text from a place on: a byte at a place, the first byte of a set, and bytes that a token goes on with whatever
// they are next to, passed thirty-two at a time.
#![tactic(auto)]

pub mod plain;

ghost use Rattle.std.specs.Prelude.{◌≡◌, Bool, ℕ, ◌≤◌, length, drop};
ghost use Rattle.std.specs.List.{position_or_len};
ghost use Rattle.places.specs.Places.{is_byte, peeks, Scanned, Tells};

// Whether the byte stands at `at`.
#[tactic(auto, using(crate::specs::PlaceLaws::peeks_here, crate::specs::PlaceLaws::peeks_out))]
pub fn is_at(text: &[u8], at: usize, byte: u8) -> bool
    ensures { result ≡ peeks (is_byte byte) (drop at text.now) }
{
    at < text.len() && text[at] == byte
}

// Where the first byte that `ends` is true of stands, from `at` on, or the end of the text.
pub fn until<F: Fn(u8) -> bool>(text: &[u8], at: usize, ends: F) -> usize
    requires at_in_bounds { at ≤ length text.now }
    requires callable { F.IsAlwaysCallable ends }
    ensures { (set : ℕ → Bool) → Tells (F.post ends) set → Scanned (λ bs. position_or_len set bs) text.now at result }
{
    match text[at..].iter().position(|b| ends(*b)) {
        Some(n) => at + n,
        None => text.len(),
    }
}
