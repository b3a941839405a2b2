// The document entry over a lent list of token structs: they are copied into records, and the byte form parses these.
#![tactic(auto)]

ghost use Rattle.std.specs.Prelude.{◌*◌, ◌≤◌, length, take};
ghost use Rattle.rules.specs.Entries.{document_entry};
ghost use Rattle.choices.specs.Modes.{AnswersIn};
ghost use Rattle.struct_records.specs.Structs.{records_of};

use choices::modes::{choose, unknown_mode};
use entries::entries::parse_document;
use rules::answer::Answer;
use struct_records::{Token, copy, is_too_many, too_many};

// Room for as many records as a list may have, six bytes each.
const RECORD_BYTES: usize = 393216;

// The byte form on the first n records.
fn parse_records(
    mode: u32,
    records: &mut [u8],
    n: usize,
    base: u32,
    events: &mut [u32],
    errors: &mut [u32],
) -> Answer
    requires { 6 * n ≤ length records.old }
    ensures { AnswersIn mode document_entry (take (6 * n) records.old) base events.old errors.old events.new errors.new result }
{
    let end = 6 * n;
    match choose(mode) {
        Some(options) => parse_document(&records[..end], base, options, events, errors),
        None => unknown_mode(),
    }
}

// The entry with a lent record buffer, in which the structs have room.
fn parse_in(
    mode: u32,
    tokens: &[Token],
    records: &mut [u8],
    base: u32,
    events: &mut [u32],
    errors: &mut [u32],
) -> Answer
    requires { 6 * length tokens.now ≤ length records.old }
    ensures { AnswersIn mode document_entry (records_of tokens.now) base events.old errors.old events.new errors.new result }
{
    copy(tokens, records);
    parse_records(mode, records, tokens.len(), base, events, errors)
}

// The entry: any list may be given, and a mode by its number. A list that is too long is refused before anything is copied.
pub fn parse_tokens(
    mode: u32,
    tokens: &[Token],
    base: u32,
    events: &mut [u32],
    errors: &mut [u32],
) -> Answer
    ensures { AnswersIn mode document_entry (records_of tokens.now) base events.old errors.old events.new errors.new result }
{
    if is_too_many(tokens.len()) {
        return too_many(mode);
    }
    let mut records = [0; RECORD_BYTES];
    parse_in(mode, tokens, &mut records, base, events, errors)
}
