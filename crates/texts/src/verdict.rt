// The yes of a text: whether it is good to act on.
ghost use Rattle.text_steps.specs.TextVerdicts.{JudgesText};

use judging::verdict::Verdict;
use text_steps::verdict::begin_verdict;
use verdicts::known::judge;

// Whether the text's tokens fit; and if it was not judged, the refusal's number and its place, else 0 and 0. A text that was lexed is judged by
// its records.
pub fn text_fits(text: &[u8], records: &mut [u8], events: &mut [u32]) -> Verdict
    ensures { JudgesText text.now records.old events.old records.new events.new result }
{
    match begin_verdict(text, records) {
        Err(verdict) => verdict,
        Ok((base, count)) => {
            let size = 6 * count;
            judge(&records[..size], base, events)
        }
    }
}
