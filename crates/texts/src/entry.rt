// The joined entry: a text and three lent buffers in; the answer out, and the buffers filled.
ghost use Rattle.std.specs.Prelude.{◌≡◌};
ghost use Rattle.text_rules.specs.TextOutcome.{TextAnswers};

use entries::entries::read_document;
use rules::options::Options;
use text_rules::answer::TextAnswer;
use text_steps::entry::{begin_text, text_answer};

// Lexes, then reads.
pub fn parse_text(
    text: &[u8],
    options: Options,
    records: &mut [u8],
    events: &mut [u32],
    errors: &mut [u32],
) -> TextAnswer
    ensures { TextAnswers options text.now records.old events.old errors.old records.new events.new errors.new result }
{
    match begin_text(text, records) {
        Err(answer) => answer,
        Ok((base, count)) => {
            let size = 6 * count;
            let read = read_document(&records[..size], base, options, events, errors);
            text_answer(base, count, read)
        }
    }
}
