// What the definitions amount to, each as the contract of a function that does nothing.
ghost use Rattle.token.specs.Tokens.{all_tokens};
ghost use Rattle.fitting.specs.Quiet.{QuietRun};
ghost use Rattle.rules.specs.declared.options.Options.{Options};
ghost use Rattle.fitting.specs.Premises.{Regular, document_run};
ghost use Rattle.index.specs.Outcome.{IndexDetermined, Indexable};
ghost use Rattle.index.specs.Reads.{IndexReads};

use fitting_theorems::theorems::quiet_events_determine_tokens;
use rules::answer::Answer;

// An index is read again: from its start `header_at` gives the headers of the events, in order, and then the end. So every place of a run of at
// most 65,536 events fits in two bytes, and every count in four.
pub fn indexes_are_read_again(events: &[u32], n: usize)
    ensures { IndexReads events.now n }
{}

// Two answers of `index`, each with the buffer that it leaves, that both meet its contract for the same input are equal.
pub fn indexes_are_determined(answer: Answer, events: &[u32], index: &[u8])
    ensures { IndexDetermined answer events.now index.now }
{}

// A quiet run of the document entry over a list that meets the premises is never refused as not quiet: it has no more events than records, so
// every place fits in two bytes.
pub fn quiet_runs_are_indexable(s: &[u8], base: u32, events: &[u32], errors: &[u32])
    ensures { (options : Options)
        → Regular (all_tokens s.now base)
        → QuietRun (document_run options s.now base events.now errors.now)
        → Indexable (document_run options s.now base events.now errors.now).answer (document_run options s.now base events.now errors.now).events }
{
    quiet_events_determine_tokens(s, s, base, events, errors, events, errors)
}
