// How the two modes differ, as contracts of functions that do nothing.
#![tactic(auto)]

ghost use Rattle.std.specs.Prelude.{◌≡◌};
ghost use Rattle.rules.specs.declared.options.Mode.{Mode};
ghost use Rattle.rules.specs.Entries.{Entry};
ghost use Rattle.rules.specs.Answer.{outcome, as_crate};
ghost use Rattle.modes.specs.Modes.{as_brace, Alike};
ghost use Rattle.modes.specs.CommaTexts.{comma_texts, commas_ruled, commas_written};

// In brace mode the answer and the events are those of crate mode, and so are the errors but for the unexpected span and the line of message 19.
pub fn modes_differ_in_commas_only(s: &[u8], base: u32, events: &[u32], errors: &[u32])
    ensures { (entry : Entry)
        → Alike errors.now (outcome as_crate entry s.now base events.now errors.now) (outcome as_brace entry s.now base events.now errors.now) }
{}

// Texts whose commas surprise, as each mode reads them.
pub fn commas_as_read()
    ensures { (commas_ruled Mode.Crate comma_texts ≡ commas_written Mode.Crate comma_texts) × (commas_ruled Mode.Brace comma_texts ≡ commas_written Mode.Brace comma_texts) }
{}
