// Token structs as records: a list of structs copied into records, and the answer to a list that is too long. It calls no entry.
#![tactic(auto)]

pub mod theorems;

ghost use Rattle.std.specs.Prelude.{◌≡◌, ◌++◌, ◌+◌, ◌*◌, ◌≤◌, ltb, length, drop};
ghost use Rattle.token.specs.Limits.{max_records};
ghost use Rattle.token.specs.Writing.{put_at};
ghost use Rattle.struct_records.specs.Structs.{records_of, too_many};

use choices::modes::{choose, unknown_mode};
use rules::answer::Answer;
use token::checked::MAX_RECORDS;
use token::refusal::Refusal;
use writing::put_record;

// A token: its length in bytes, and the number of its kind.
#[repr(C)]
#[derive(Clone, Copy)]
pub struct Token {
    pub length: u32,
    pub kind: u16,
}

// Record i: the struct's.
fn put(records: &mut [u8], i: usize, token: Token)
    requires { 6 * i + 6 ≤ length records.old }
    ensures { records.new ≡ put_at records.old i token.length token.kind }
{
    put_record(records, i, token.length as usize, usize::from(token.kind));
}

// The records of all structs, one after the other.
pub fn copy(tokens: &[Token], records: &mut [u8])
    requires { 6 * length tokens.now ≤ length records.old }
    ensures { records.new ≡ records_of tokens.now ++ drop (6 * length tokens.now) records.old }
{
    for (i, token) in tokens.iter().enumerate() {
        put(records, i, *token);
    }
}

// Whether n structs are more than there may be records.
pub fn is_too_many(n: usize) -> bool
    ensures { result ≡ ltb max_records n }
{
    MAX_RECORDS < n
}

// The answer to more structs than there may be records: their number is refused, but an unknown mode before it.
pub fn too_many(mode: u32) -> Answer
    ensures { result ≡ too_many mode }
{
    match choose(mode) {
        Some(_) => Answer {
            refusal: Refusal::Records as u32,
            place: MAX_RECORDS,
            events: 0,
            errors: 0,
        },
        None => unknown_mode(),
    }
}
