// The yes for programs in C and Rust: whether a run was quiet, whether a list is regular, and whether a list fits.
ghost use Rattle.std.specs.Prelude.{◌≡◌, true, ◌↔◌};
ghost use Rattle.token.specs.Tokens.{all_tokens};
ghost use Rattle.fitting.specs.Premises.{Regular};
ghost use Rattle.quiet.specs.Runs.{QuietAnswer};
ghost use Rattle.export_answers.specs.Exported.{plain};
ghost use Rattle.export_texts.specs.ExportedVerdicts.{ExportsVerdict};

use export_answers::answer::ExportedAnswer;
use export_texts::judgements::ExportedVerdict;
use quiet::run::is_quiet;
use regular::is_regular;
use rules::answer::Answer;
use verdicts::verdict::fits;

#[unsafe(no_mangle)]
pub extern "C" fn deckmarten_is_quiet(answer: ExportedAnswer, events: &[u32]) -> bool
    ensures { (result ≡ true) ↔ QuietAnswer (plain answer) events.now }
{
    is_quiet(Answer::from(answer), events)
}

#[unsafe(no_mangle)]
pub extern "C" fn deckmarten_is_regular(records: &[u8], base: u32) -> bool
    ensures { (result ≡ true) ↔ Regular (all_tokens records.now base) }
{
    is_regular(records, base)
}

#[unsafe(no_mangle)]
pub extern "C" fn deckmarten_fits(records: &[u8], base: u32, events: &mut [u32]) -> ExportedVerdict
    ensures { ExportsVerdict records.now base events.old events.new result }
{
    ExportedVerdict::from(fits(records, base, events))
}
