// The list of mistakes for programs in C and Rust: of a run, and of a text by one call.
ghost use Rattle.export_answers.specs.Exported.{plain};
ghost use Rattle.export_listings.specs.ExportedMistakes.{ExportsListing, ExportsCheck};

use export_answers::answer::ExportedAnswer;
use export_listings::listings::{ExportedCheck, ExportedListed};
use mistakes::mistakes as mistakes_of_run;
use rules::answer::Answer;
use text_mistakes::check_text;

#[unsafe(no_mangle)]
pub extern "C" fn deckmarten_mistakes(
    records: &[u8],
    base: u32,
    answer: ExportedAnswer,
    events: &[u32],
    errors: &[u32],
    mistakes: &mut [u32],
) -> ExportedListed
    ensures { ExportsListing records.now base (plain answer) events.now errors.now mistakes.old mistakes.new result }
{
    let r = mistakes_of_run(
        records,
        base,
        Answer::from(answer),
        events,
        errors,
        mistakes,
    );
    ExportedListed::from(r)
}

#[unsafe(no_mangle)]
pub extern "C" fn deckmarten_check_text(
    text: &[u8],
    records: &mut [u8],
    events: &mut [u32],
    errors: &mut [u32],
    mistakes: &mut [u32],
) -> ExportedCheck
    ensures { ExportsCheck text.now records.old events.old errors.old mistakes.old records.new events.new errors.new mistakes.new result }
{
    ExportedCheck::from(check_text(text, records, events, errors, mistakes))
}
