// An entry of the index, written.
ghost use Rattle.std.specs.Prelude.{◌≡◌, ◌+◌, ◌≤◌, length, take};
ghost use Rattle.std.specs.Int.{w64, to_le_bytes};
ghost use Rattle.headers.specs.Headers.{entry_size, entry_bytes};
ghost use Rattle.headers.specs.Placing.{placed};

use headers::header::Header;

// The length of an entry in bytes.
pub const ENTRY_SIZE: usize = 17;

// The kind of entry that has places of two bytes.
pub(crate) const SHORT_PLACES: usize = 1;

// The low N bytes of a number, least byte first.
fn put_low<const N: usize>(index: &mut [u8], at: usize, n: usize)
    requires few { N ≤ 8 }
    requires room { at + N ≤ length index.old }
    ensures { index.new ≡ placed at (take N (to_le_bytes w64 n)) index.old }
{
    index[at..at + N].copy_from_slice(&n.to_le_bytes()[..N]);
}

// Length, kind, place, key parts, array mark, events.
pub fn put_entry(index: &mut [u8], at: usize, header: Header)
    requires { at + entry_size ≤ length index.old }
    ensures { index.new ≡ placed at (entry_bytes header) index.old }
{
    put_low::<4>(index, at, ENTRY_SIZE);
    put_low::<2>(index, at + 4, SHORT_PLACES);
    put_low::<2>(index, at + 6, header.place);
    put_low::<4>(index, at + 8, header.parts);
    put_low::<1>(index, at + 12, usize::from(header.array));
    put_low::<4>(index, at + 13, header.events);
}
