// The yes: whether a list of token records is good to act on.
ghost use Rattle.judging.specs.Verdicts.{Judges};

use entries::entries::parse_document;
use judging::run::judge_run;
use judging::verdict::Verdict;
use rules::options::{Mode, Options};

// The document entry is run with no room for errors, and what it left is judged.
pub fn fits(records: &[u8], base: u32, events: &mut [u32]) -> Verdict
    ensures { Judges records.now base events.old events.new result }
{
    let mut errors = [0u32; 0];
    let options = Options { mode: Mode::Crate };
    let answer = parse_document(records, base, options, events, &mut errors);
    judge_run(records, base, false, answer, events)
}
