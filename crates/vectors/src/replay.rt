// Replaying a case: its list is read and parsed, and what comes is held to what the file says.
use entries::entries::{parse_document, parse_key, parse_simple_key, parse_value};
use rules::answer::{Answer, ERROR_WORDS, EVENT_WORDS};
use rules::options::{Mode, Options};
use std::io::Read;
use vector_files::comparing::{UNTOUCHED, next_words_are, same_answer};
use vector_files::frames::{Broken, Case, Entry, read_bytes};

// Room for the most events and errors that a case may have.
const EVENT_ROOM: usize = 1024 * EVENT_WORDS;

const ERROR_ROOM: usize = 512 * ERROR_WORDS;

fn parse(entry: Entry, s: &[u8], base: u32, events: &mut [u32], errors: &mut [u32]) -> Answer {
    let options = Options { mode: Mode::Crate };
    match entry {
        Entry::Document => parse_document(s, base, options, events, errors),
        Entry::Key => parse_key(s, base, options, events, errors),
        Entry::SimpleKey => parse_simple_key(s, base, options, events, errors),
        Entry::Value => parse_value(s, base, options, events, errors),
    }
}

// What comes of the list, with the room of the case at the front of either buffer; or a buffer would be too long.
fn run(case: Case, list: &[u8], events: &mut [u32], errors: &mut [u32]) -> Result<Answer, Broken> {
    let event_room = case.event_room;
    let error_room = case.error_room;
    if event_room > events.len() {
        return Err(Broken);
    }
    if error_room > errors.len() {
        return Err(Broken);
    }
    Ok(parse(
        case.entry,
        list,
        case.base,
        &mut events[..event_room],
        &mut errors[..error_room],
    ))
}

// Reads the list of the case, and says whether what comes of it is what the file says. All that the buffers hold is compared, also what
// lies beyond the room.
pub fn replay(file: &mut impl Read, case: Case) -> Result<bool, Broken> {
    let mut buffer = [0; 4096];
    let list = read_bytes(file, &mut buffer, case.bytes)?;
    let mut events = [UNTOUCHED; EVENT_ROOM];
    let mut errors = [UNTOUCHED; ERROR_ROOM];
    let answer = run(case, list, &mut events, &mut errors)?;
    let same_events = next_words_are(file, &events, case.event_words)?;
    let same_errors = next_words_are(file, &errors, case.error_words)?;
    Ok(same_answer(answer, case.answer) && same_events && same_errors)
}
