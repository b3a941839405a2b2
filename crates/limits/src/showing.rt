// What comes of a list, printed as a line.
ghost use Rattle.std.specs.Prelude.{◌≤◌};

use entries::entries::parse_document;
use limit_lists::printing::{print_answer, print_last};
use rules::answer::{ERROR_WORDS, EVENT_WORDS};
use rules::options::{Mode, Options};
use std::io;

// Words of room for 256 events, and for ten errors.
pub const AMPLE: usize = 256 * EVENT_WORDS;

const ERROR_ROOM: usize = 10 * ERROR_WORDS;

// Runs the document entry with so many words of room, and prints what came.
pub fn show(rt: &impl Print, list: &[u8], base: u32, room: usize) -> io::Result<()>
    requires { room ≤ 1024 }
{
    let mut words = [0; AMPLE];
    let events = &mut words[..room];
    let mut errors = [0; ERROR_ROOM];
    let options = Options { mode: Mode::Crate };
    let answer = parse_document(list, base, options, events, &mut errors);
    print_answer(rt, answer)?;
    print_last(rt, events, answer.events.min(room / EVENT_WORDS))
}
