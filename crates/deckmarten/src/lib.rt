// The four entries, and the document entry over token structs, for programs in C and Rust. A slice passes as a pointer and a length, a struct
// as a C structure.
#![tactic(auto)]

pub mod indexes;
pub mod judgements;
pub mod listings;
pub mod text;
pub mod version;

ghost use Rattle.rules.specs.Entries.{document_entry, key_entry, simple_key_entry, value_entry};
ghost use Rattle.struct_records.specs.Structs.{records_of};
ghost use Rattle.export_answers.specs.Exported.{Exports};

use choices::modes::{choose, unknown_mode};
use entries::entries::{parse_document, parse_key, parse_simple_key, parse_value};
use export_answers::answer::ExportedAnswer;
use export_answers::options::ExportedOptions;
use struct_records::Token;
use structs::parse_tokens;

#[unsafe(no_mangle)]
pub extern "C" fn deckmarten_parse_document(
    s: &[u8],
    base: u32,
    options: ExportedOptions,
    events: &mut [u32],
    errors: &mut [u32],
) -> ExportedAnswer
    ensures { Exports options.mode document_entry s.now base events.old errors.old events.new errors.new result }
{
    match choose(options.mode) {
        Some(known) => ExportedAnswer::from(parse_document(s, base, known, events, errors)),
        None => ExportedAnswer::from(unknown_mode()),
    }
}

#[unsafe(no_mangle)]
pub extern "C" fn deckmarten_parse_key(
    s: &[u8],
    base: u32,
    options: ExportedOptions,
    events: &mut [u32],
    errors: &mut [u32],
) -> ExportedAnswer
    ensures { Exports options.mode key_entry s.now base events.old errors.old events.new errors.new result }
{
    match choose(options.mode) {
        Some(known) => ExportedAnswer::from(parse_key(s, base, known, events, errors)),
        None => ExportedAnswer::from(unknown_mode()),
    }
}

#[unsafe(no_mangle)]
pub extern "C" fn deckmarten_parse_simple_key(
    s: &[u8],
    base: u32,
    options: ExportedOptions,
    events: &mut [u32],
    errors: &mut [u32],
) -> ExportedAnswer
    ensures { Exports options.mode simple_key_entry s.now base events.old errors.old events.new errors.new result }
{
    match choose(options.mode) {
        Some(known) => ExportedAnswer::from(parse_simple_key(s, base, known, events, errors)),
        None => ExportedAnswer::from(unknown_mode()),
    }
}

#[unsafe(no_mangle)]
pub extern "C" fn deckmarten_parse_value(
    s: &[u8],
    base: u32,
    options: ExportedOptions,
    events: &mut [u32],
    errors: &mut [u32],
) -> ExportedAnswer
    ensures { Exports options.mode value_entry s.now base events.old errors.old events.new errors.new result }
{
    match choose(options.mode) {
        Some(known) => ExportedAnswer::from(parse_value(s, base, known, events, errors)),
        None => ExportedAnswer::from(unknown_mode()),
    }
}

// The header's deckmarten_parse_tokens, whose options are a structure: it hands on the mode's number.
#[unsafe(no_mangle)]
pub extern "C" fn deckmarten_parse_tokens_in(
    mode: u32,
    tokens: &[Token],
    base: u32,
    events: &mut [u32],
    errors: &mut [u32],
) -> ExportedAnswer
    ensures { Exports mode document_entry (records_of tokens.now) base events.old errors.old events.new errors.new result }
{
    ExportedAnswer::from(parse_tokens(mode, tokens, base, events, errors))
}
