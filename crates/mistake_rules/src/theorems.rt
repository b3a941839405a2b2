// What the list of mistakes amounts to, each theorem the contract of a function that does nothing.
ghost use Rattle.rules.specs.declared.options.Options.{Options};
ghost use Rattle.fitting.specs.Premises.{document_run};
ghost use Rattle.mistake_rules.specs.Outcome.{ListingDetermined};
ghost use Rattle.mistake_rules.specs.Promises.{Complete, EmptyExactlyWhenFits, NoneExactlyWhenFits, Bounded};

use rules::answer::Answer;

// Two answers of `mistakes`, each with the buffer that it leaves, that both meet its contract for the same input are equal.
pub fn listings_are_determined(
    s: &[u8],
    base: u32,
    answer: Answer,
    events: &[u32],
    errors: &[u32],
    mistakes: &[u32],
)
    ensures { ListingDetermined s.now base (record { answer = answer; events = events.now; errors = errors.now }) mistakes.now }
{}

// Of any answer with any words: every error record is in the list, once, as it is and in order; and so is every piece that no record accounts for.
pub fn mistakes_are_complete(answer: Answer, events: &[u32], errors: &[u32])
    ensures { Complete (record { answer = answer; events = events.now; errors = errors.now }) }
{}

// Of a run of the document entry, in either mode, that was not refused: its list of mistakes is empty exactly when the tokens fit.
pub fn empty_exactly_when_fits(s: &[u8], base: u32, events: &[u32], errors: &[u32])
    ensures { (options : Options) → EmptyExactlyWhenFits s.now base (document_run options s.now base events.now errors.now) }
{}

// So `mistakes` answers for such a run, without a refusal, that there is none exactly when the tokens fit.
pub fn none_exactly_when_fits(s: &[u8], base: u32, events: &[u32], errors: &[u32], mistakes: &[u32])
    ensures { (options : Options) → NoneExactlyWhenFits s.now base (document_run options s.now base events.now errors.now) mistakes.now }
{}

// n records give at most 5 n + 1 mistakes.
pub fn mistakes_are_bounded(s: &[u8], base: u32, events: &[u32], errors: &[u32], mistakes: &[u32])
    ensures { (options : Options) → Bounded s.now base (document_run options s.now base events.now errors.now) mistakes.now }
{}
