// What is told by the code of a byte; and the ends of the tokens that are looked for by it.
ghost use Rattle.std.specs.Prelude.{◌≡◌, ◌≤◌, length, drop};
ghost use Rattle.places.specs.Places.{Scanned, peeks};
ghost use Rattle.scan.specs.Lexer.{ends_whitespace, ends_atom, lex_atom};

use crate::table::Codes;
use places::until;

// Codes are numbers and no enum, since one comparison tells a token of one byte, and its code is then the number that is written.
// The last code of a byte that is a token alone: it is the number of the token's kind.
pub const LAST_ALONE: u8 = 10;

// The code of a space or tab, and the first of a byte that an atom goes on with.
const WSCHAR: u8 = 11;

const FIRST_IN_ATOM: u8 = 14;

// The code of a byte that only an atom starts with.
pub const OTHER: u8 = 16;

impl Codes {
    // Whether a byte stands at `at` that ends whitespace.
    #[tactic(auto, using(places::specs::PlaceLaws::peeks_here, places::specs::PlaceLaws::peeks_out, scan::specs::CodeLaws::whitespace_code))]
    pub fn whitespace_ends(&self, text: &[u8], at: usize) -> bool
        ensures { result ≡ peeks ends_whitespace (drop at text.now) }
    {
        at < text.len() && self.code_of(text[at]) != WSCHAR
    }

    #[tactic(auto, using(scan::specs::CodeLaws::atom_code))]
    fn ends_atom(&self, b: u8) -> bool
        ensures { result ≡ ends_atom b }
    {
        self.code_of(b) < FIRST_IN_ATOM
    }

    // lex_atom, eight bytes a turn: the compiler writes out the loop over the eight. Passing each by `until` takes half as many
    // instructions again on long atoms.
    pub fn lex_atom(&self, text: &[u8], at: usize) -> usize
        requires { at ≤ length text.now }
        ensures { Scanned lex_atom text.now at result }
    {
        let mut i = at;
        while 8 <= text.len() - i {
            for k in 0..8 {
                if self.ends_atom(text[i + k]) {
                    return i + k;
                }
            }
            i += 8;
        }
        until(text, i, |b| self.ends_atom(b))
    }
}
