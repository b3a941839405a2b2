// Text in, for programs in C and Rust: the lexer by itself, the joined entry, and the yes of a text.
ghost use Rattle.export_texts.specs.ExportedTexts.{ExportsLexed, ExportsText, ExportsTextVerdict};

use choices::modes::choose;
use export_answers::options::ExportedOptions;
use export_texts::judgements::ExportedVerdict;
use export_texts::text::{ExportedLexed, ExportedTextAnswer, exported_unknown};
use lex::lex;
use texts::entry::parse_text;
use texts::verdict::text_fits;

#[unsafe(no_mangle)]
pub extern "C" fn deckmarten_lex(text: &[u8], records: &mut [u8]) -> ExportedLexed
    ensures { ExportsLexed text.now records.old records.new result }
{
    ExportedLexed::from(lex(text, records))
}

#[unsafe(no_mangle)]
pub extern "C" fn deckmarten_parse_text(
    text: &[u8],
    options: ExportedOptions,
    records: &mut [u8],
    events: &mut [u32],
    errors: &mut [u32],
) -> ExportedTextAnswer
    ensures { ExportsText options.mode text.now records.old events.old errors.old records.new events.new errors.new result }
{
    match choose(options.mode) {
        Some(known) => ExportedTextAnswer::from(parse_text(text, known, records, events, errors)),
        None => exported_unknown(),
    }
}

#[unsafe(no_mangle)]
pub extern "C" fn deckmarten_text_fits(
    text: &[u8],
    records: &mut [u8],
    events: &mut [u32],
) -> ExportedVerdict
    ensures { ExportsTextVerdict text.now records.old events.old records.new events.new result }
{
    ExportedVerdict::from(text_fits(text, records, events))
}
