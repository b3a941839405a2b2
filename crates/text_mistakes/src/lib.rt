// From a text to its mistakes, by one call.
#![tactic(auto)]

ghost use Rattle.text_listing.specs.Checking.{ChecksText};

use rules::options::{Mode, Options};
use text_listing::{TextCheck, list_read};
use texts::entry::parse_text;

// Reads the text, in brace mode, and lists the mistakes of the run.
pub fn check_text(
    text: &[u8],
    records: &mut [u8],
    events: &mut [u32],
    errors: &mut [u32],
    mistakes: &mut [u32],
) -> TextCheck
    ensures { ChecksText text.now records.old events.old errors.old mistakes.old records.new events.new errors.new mistakes.new result }
{
    let options = Options { mode: Mode::Brace };
    let read = parse_text(text, options, records, events, errors);
    list_read(read, records, events, errors, mistakes)
}
