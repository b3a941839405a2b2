// What the contracts amount to, each as the contract of a function that does nothing.
ghost use Rattle.token.specs.Tokens.{all_tokens};
ghost use Rattle.fitting.specs.Premises.{Regular};
ghost use Rattle.quiet.specs.Runs.{QuietAnswer, SingleLineAnswer};
ghost use Rattle.quiet.specs.Determined.{DeterminedTest};

use rules::answer::Answer;

// Two answers of `is_quiet` that both meet its contract for the same input are equal.
pub fn quiet_is_determined(answer: Answer, events: &[u32])
    ensures { DeterminedTest (QuietAnswer answer events.now) }
{}

// Two of `has_no_multi_line_key`.
pub fn keys_are_determined(answer: Answer, events: &[u32])
    ensures { DeterminedTest (SingleLineAnswer answer events.now) }
{}

// Two of `is_regular`.
pub fn regular_is_determined(records: &[u8], base: u32)
    ensures { DeterminedTest (Regular (all_tokens records.now base)) }
{}
