// Frames of vectors.bin, read in turn. Words have four bytes, the lowest first.
ghost use Rattle.std.specs.Prelude.{◌≡◌, ◌+◌, ◌≤◌, IfOk, length};
ghost use Rattle.vector_files.specs.Padded.{ReadsPadded};

use rules::answer::Answer;
use std::io;
use std::io::Read;

// The file has not what it must have, or cannot be read.
#[derive(Clone, Copy, Debug, PartialEq, Eq)]
pub struct Broken;

impl From<io::Error> for Broken {
    fn from(_error: io::Error) -> Self {
        Broken
    }
}

// Where a list is parsed. The numbers are those that ENTRIES of oracle/src/walk.rs gives.
#[derive(Clone, Copy, Debug, PartialEq, Eq)]
pub enum Entry {
    Document,
    Key,
    SimpleKey,
    Value,
}

impl TryFrom<u32> for Entry {
    type Error = Broken;

    fn try_from(number: u32) -> Result<Self, Broken> {
        match number {
            0 => Ok(Entry::Document),
            1 => Ok(Entry::Key),
            2 => Ok(Entry::SimpleKey),
            3 => Ok(Entry::Value),
            _ => Err(Broken),
        }
    }
}

// A list at an entry with its room, what the oracle answers, and how many words it writes.
#[derive(Clone, Copy)]
pub struct Case {
    pub entry: Entry,
    pub base: u32,
    pub bytes: u32,
    pub event_room: usize,
    pub error_room: usize,
    pub answer: Answer,
    pub event_words: usize,
    pub error_words: usize,
}

#[derive(Clone, Copy)]
pub enum Frame {
    // The end, with the number of cases before it.
    End(u64),
    // A case, whose list and words are still to be read.
    Case(Case),
    // The name of the class that begins, of so many bytes, which are still to be read.
    Note(u32),
}

// The bytes of a case before its list: eleven words.
const HEAD_BYTES: usize = 44;

fn read_array<const N: usize>(file: &mut impl Read) -> Result<[u8; N], Broken> {
    let mut bytes = [0; N];
    file.read_exact(&mut bytes)?;
    Ok(bytes)
}

fn read_word(file: &mut impl Read) -> Result<u32, Broken> {
    Ok(u32::from_le_bytes(read_array(file)?))
}

// Reads so many bytes, which fill whole words in the file, into the buffer, and answers with them.
pub fn read_bytes<'a, R: Read>(
    file: &mut R,
    buffer: &'a mut [u8],
    bytes: u32,
) -> Result<&'a [u8], Broken>
    ensures count { IfOk result (λ read. length read.now ≡ bytes) }
    ensures bytes { IfOk result (λ read. ReadsPadded (R.remaining file.old) (R.remaining file.new) read.now) }
{
    let count = (bytes as usize).next_multiple_of(4);
    if count > buffer.len() {
        return Err(Broken);
    }
    let padded = &mut buffer[..count];
    file.read_exact(padded)?;
    Ok(&padded[..bytes as usize])
}

// The word at byte `at`.
pub fn word(bytes: &[u8], at: usize) -> u32
    requires { at + 4 ≤ length bytes.now }
{
    u32::from_le_bytes([bytes[at], bytes[at + 1], bytes[at + 2], bytes[at + 3]])
}

fn size(bytes: &[u8], at: usize) -> usize
    requires { at + 4 ≤ length bytes.now }
{
    word(bytes, at) as usize
}

// The head is read at once: a read of each word by itself asks the system eleven times.
fn read_case(file: &mut impl Read) -> Result<Case, Broken> {
    let head: [u8; HEAD_BYTES] = read_array(file)?;
    Ok(Case {
        entry: Entry::try_from(word(&head, 0))?,
        base: word(&head, 4),
        bytes: word(&head, 8),
        event_room: size(&head, 12),
        error_room: size(&head, 16),
        answer: Answer {
            refusal: word(&head, 20),
            place: size(&head, 24),
            events: size(&head, 28),
            errors: size(&head, 32),
        },
        event_words: size(&head, 36),
        error_words: size(&head, 40),
    })
}

pub fn read_frame(file: &mut impl Read) -> Result<Frame, Broken> {
    match read_word(file)? {
        0 => Ok(Frame::End(u64::from_le_bytes(read_array(file)?))),
        1 => Ok(Frame::Case(read_case(file)?)),
        2 => Ok(Frame::Note(read_word(file)?)),
        _ => Err(Broken),
    }
}
