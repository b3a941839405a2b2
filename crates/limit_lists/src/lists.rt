// Lists of records, each as short as its kind allows.
use std::ops::Range;
use token::kind::Kind;

// The bytes of a record: a length in four bytes and a kind in two, the lowest first.
const RECORD_BYTES: usize = 6;

fn record_of(kind: u8) -> [u8; RECORD_BYTES] {
    let length = u8::from(kind != Kind::Eof as u8);
    [length, 0, 0, 0, kind, 0]
}

// Makes the records of these numbers ones of this kind, as far as the list has them. A kind is a number here, since a list may hold one that is none.
pub fn fill(list: &mut [u8], records: Range<usize>, kind: u8) {
    let record = record_of(kind);
    for bytes in list
        .chunks_exact_mut(RECORD_BYTES)
        .take(records.end)
        .skip(records.start)
    {
        bytes.copy_from_slice(&record);
    }
}

// The same for record i.
pub fn put(list: &mut [u8], i: usize, kind: u8) {
    fill(list, i..i.saturating_add(1), kind)
}
