// The yes for records that are known to pass the check and to be regular: a caller that wrote them itself has shown it, and neither is asked again.
ghost use Rattle.std.specs.Prelude.{◌≡◌};
ghost use Rattle.token.specs.Tokens.{all_tokens};
ghost use Rattle.token.specs.Check.{checked};
ghost use Rattle.fitting.specs.Premises.{Regular};
ghost use Rattle.judging.specs.Verdicts.{Judges};

use entries::entries::read_document;
use judging::run::judge_run;
use judging::verdict::Verdict;
use rules::options::{Mode, Options};

// As `fits`, without the check and without asking whether the list is regular.
pub fn judge(records: &[u8], base: u32, events: &mut [u32]) -> Verdict
    requires base_value { checked records.now base ≡ Ok tt }
    requires regular { Regular (all_tokens records.now base) }
    ensures { Judges records.now base events.old events.new result }
{
    let mut errors = [0u32; 0];
    let options = Options { mode: Mode::Crate };
    let answer = read_document(records, base, options, events, &mut errors);
    judge_run(records, base, true, answer, events)
}
