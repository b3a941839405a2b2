// The limits of a list, and what its check says of one that it refuses. The check itself is in the crate checks.
use crate::refusal::Refusal;

// How many records a list may have, and where the text may end at the latest.
pub const MAX_RECORDS: usize = 65536;

pub const MAX_END: usize = 16777216;

// Why a list is refused, and where: mostly the number of a record.
#[derive(Clone, Copy, PartialEq, Eq)]
pub struct Refused {
    pub refusal: Refusal,
    pub place: usize,
}
