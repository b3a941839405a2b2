// What an entry gives, held to what the file says.
ghost use Rattle.std.specs.Prelude.{◌≡◌, ◌↔◌, ◌*◌, ◌≤◌, IsTrue, length};

use crate::frames::{Broken, word};
use rules::answer::Answer;
use std::io::Read;

// What both buffers hold beforehand. No word that an entry writes is this one, since none is above 16,777,216.
pub const UNTOUCHED: u32 = 0xA5C3F00D;

pub fn same_answer(a: Answer, wanted: Answer) -> bool
    ensures { IsTrue result ↔ (a ≡ wanted) }
{
    a.refusal == wanted.refusal
        && a.place == wanted.place
        && a.events == wanted.events
        && a.errors == wanted.errors
}

// Words are read so many at a time: all that a case may have in a buffer, since each read asks the system.
const PART_WORDS: usize = 4096;

// Whether these are the words that come first in the bytes.
fn begin_with(bytes: &[u8], words: &[u32]) -> bool
    requires { 4 * length words.now ≤ length bytes.now }
{
    for i in 0..words.len() {
        if words[i] != word(bytes, 4 * i) {
            return false;
        }
    }
    true
}

// Whether the buffer begins with so many words that come next in the file, and is untouched after them. All the words are read, also
// behind one that differs, since the file goes on after them.
pub fn next_words_are(file: &mut impl Read, buffer: &[u32], words: usize) -> Result<bool, Broken> {
    let mut bytes = [0; 4 * PART_WORDS];
    let Some((written, beyond)) = buffer.split_at_checked(words) else {
        return Err(Broken);
    };
    let mut same = true;
    for part in written.chunks(PART_WORDS) {
        let wanted = &mut bytes[..4 * part.len()];
        file.read_exact(wanted)?;
        same = same && begin_with(wanted, part);
    }
    Ok(same && beyond.iter().all(|word| *word == UNTOUCHED))
}
