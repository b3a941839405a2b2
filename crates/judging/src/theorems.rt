// What the contracts amount to, each as the contract of a function that does nothing.
ghost use Rattle.std.specs.Prelude.{ℕ, List};
ghost use Rattle.judging.specs.declared.verdict.Verdict.{Verdict};
ghost use Rattle.judging.specs.Verdicts.{DeterminedVerdict, Judges, Judged};

use fitting_theorems::theorems::fits_then_quiet;

// Two answers of `fits` that both meet its contract for the same input, each with the event buffer that it leaves, are equal.
pub fn verdicts_are_determined(records: &[u8], base: u32, events: &[u32])
    ensures { DeterminedVerdict records.now base events.now }
{}

// What an answer of `fits` says by itself: without a refusal, whether the list is sound; and a yes comes without a refusal.
pub fn verdicts_judge(records: &[u8], base: u32, events: &[u32])
    ensures { (after : List ℕ) (v : Verdict) → Judges records.now base events.now after v → Judged records.now base v }
{
    fits_then_quiet(records, base, events, &[0u32; 0])
}
