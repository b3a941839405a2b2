// Past bytes that are none of three. The place is a number, and 32 where none is one: a minimum of numbers is what the compiler makes vector
// code of, and the library memchr takes two fifths more for long comments. Three bytes are three parameters, since an array would be passed
// by its address. The places of those among thirty-two are compared, each by itself, so that the compiler takes
// the bytes sixteen at a time. It does so for three bytes to look for, and not for two or one: where fewer matter, a control
// character that people do not write makes up the number.
ghost use Rattle.std.specs.Prelude.{◌≡◌, cond, [], ◌∷◌, ◌+◌, ◌≤◌, length};
ghost use Rattle.places.specs.Places.{none_of, Passed};

// These make up the number.
pub const NUL: u8 = 0;

pub const DEL: u8 = 127;

// The place k of a byte that is one of the three, else 32.
fn place_of(b: u8, k: u8, x: u8, y: u8, z: u8) -> u8
    ensures { result ≡ cond (none_of (x ∷ y ∷ z ∷ []) b) 32 k }
{
    if b == x || b == y || b == z { k } else { 32 }
}

// The place of the first among the thirty-two bytes from `at` on that is one of the three, or 32: the bytes before it are none.
fn first_of(text: &[u8], at: usize, x: u8, y: u8, z: u8) -> u8
    requires { at + 32 ≤ length text.now }
    ensures { Passed (none_of (x ∷ y ∷ z ∷ [])) text.now at (at + result) }
{
    let mut first: u8 = 32;
    for k in 0..32 {
        first = first.min(place_of(text[at + k], k as u8, x, y, z));
    }
    first
}

// A turn goes on by as many bytes as it has passed, so no `for` says it plainer.
// Past bytes that are none of the three, up to the first that is one, or to the last thirty-one of the text.
pub fn past_plain(text: &[u8], at: usize, x: u8, y: u8, z: u8) -> usize
    requires { at ≤ length text.now }
    ensures { Passed (none_of (x ∷ y ∷ z ∷ [])) text.now at result }
{
    let mut i = at;
    while 32 <= text.len() - i {
        let first = first_of(text, i, x, y, z);
        i += first as usize;
        if first < 32 {
            return i;
        }
    }
    i
}

// The same where a token is often over at once: nothing is looked for if the first byte is one of the three.
pub fn past_plain_if_first(text: &[u8], at: usize, x: u8, y: u8, z: u8) -> usize
    requires { at ≤ length text.now }
    ensures { Passed (none_of (x ∷ y ∷ z ∷ [])) text.now at result }
{
    if at < text.len() && place_of(text[at], 0, x, y, z) == 0 {
        return at;
    }
    past_plain(text, at, x, y, z)
}
