// The index, read: the header at a position of its bytes.
ghost use Rattle.std.specs.Prelude.{◌≡◌, ◌+◌, ◌≤◌, length};
ghost use Rattle.headers.specs.Headers.{entry_size};
ghost use Rattle.index_entries.specs.Reading.{two_at, four_at, is_entry, header_at};

use crate::entry::{ENTRY_SIZE, SHORT_PLACES};
use headers::header::Header;

// An entry, and the position behind it. Or the position is the end of the bytes. Or the bytes there are no entry.
#[derive(Clone, Copy)]
pub enum HeaderAt {
    Entry(Header, usize),
    End,
    NoEntry,
}

fn two_at(bytes: &[u8], at: usize) -> usize
    requires { at + 2 ≤ length bytes.now }
    ensures { result ≡ two_at bytes.now at }
{
    usize::from(u16::from_le_bytes([bytes[at], bytes[at + 1]]))
}

fn four_at(bytes: &[u8], at: usize) -> usize
    requires { at + 4 ≤ length bytes.now }
    ensures { result ≡ four_at bytes.now at }
{
    u32::from_le_bytes([bytes[at], bytes[at + 1], bytes[at + 2], bytes[at + 3]]) as usize
}

// Whether an entry starts there, which has room.
#[tactic(auto, unfolding(crate::specs::Reading::is_entry))]
fn is_entry(bytes: &[u8], at: usize) -> bool
    requires { at + entry_size ≤ length bytes.now }
    ensures { result ≡ is_entry bytes.now at }
{
    four_at(bytes, at) == ENTRY_SIZE && two_at(bytes, at + 4) == SHORT_PLACES && bytes[at + 12] < 2
}

// Any bytes may be given, and any position.
#[tactic(auto, unfolding(crate::specs::Reading::is_entry, crate::specs::Reading::header_at))]
pub fn header_at(index: &[u8], at: usize) -> HeaderAt
    ensures { result ≡ header_at index.now at }
{
    let size = index.len();
    if at == size {
        return HeaderAt::End;
    }
    if size < at || size - at < ENTRY_SIZE || !is_entry(index, at) {
        return HeaderAt::NoEntry;
    }
    HeaderAt::Entry(
        Header {
            place: two_at(index, at + 6),
            parts: four_at(index, at + 8),
            array: index[at + 12] == 1,
            events: four_at(index, at + 13),
        },
        at + ENTRY_SIZE,
    )
}
