// The record reader: length and kind of a record, as docs/LAYOUT.md has them.
ghost use Rattle.std.specs.Prelude.{◌≡◌, ◌<◌};
ghost use Rattle.token.specs.Records.{count, length_at, kind_number_at, kind_at};

use crate::kind::{Kind, kind_of};

fn wide(byte: u8) -> u32
    ensures { (result ≡ byte) × (result < 256) }
{
    byte as u32
}

// The length of record i: four bytes, least first. Byte 0 holds bits 0 to 7, byte 1 bits 8 to 15, and so on.
fn length_by_bytes(s: &[u8], i: usize) -> u32
    requires { i < count s.now }
    ensures { result ≡ length_at s.now i }
{
    let b = i * 6;
    let mut length = 0;
    for byte in 0..4 {
        length += wide(s[b + byte]) << (8 * byte);
    }
    length
}

// The same, for all who read lengths. The loop has a function of its own so that the compiler makes one load of the four bytes.
pub fn length_at(s: &[u8], i: usize) -> u32
    requires { i < count s.now }
    ensures { result ≡ length_at s.now i }
{
    length_by_bytes(s, i)
}

// The number of record i's kind: two bytes, least first.
pub fn kind_number_at(s: &[u8], i: usize) -> u32
    requires { i < count s.now }
    ensures { result ≡ kind_number_at s.now i }
{
    let b = i * 6;
    wide(s[b + 4]) + wide(s[b + 5]) * 256
}

pub fn kind_at(s: &[u8], i: usize) -> Kind
    requires { i < count s.now }
    ensures { result ≡ kind_at s.now i }
{
    kind_of(kind_number_at(s, i))
}
