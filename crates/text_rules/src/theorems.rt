// What the joined entry's answers amount to: theorems, each the contract of a function that does nothing.
ghost use Rattle.std.specs.Prelude.{◌≡◌};
ghost use Rattle.fitting.specs.Premises.{Regular};
ghost use Rattle.scan.specs.Lexer.{tokens_of};
ghost use Rattle.text_rules.specs.TextOutcome.{TextDetermined};
ghost use Rattle.text_rules.specs.TextsRead.{readings, document_texts, outcomes_of, outcomes_written, strange_texts, told_by, as_given};

// Two answers, each with the three buffers that it leaves, that both meet the joined entry's contract for the same input are equal.
pub fn text_answers_are_determined(text: &[u8], records: &[u8], events: &[u32], errors: &[u32])
    ensures { TextDetermined text.now records.now events.now errors.now }
{}

// Document 01's texts, from their bytes: the answer, and every word of the three buffers, which all hold `word` beforehand.
pub fn texts_are_read(word: u32)
    ensures { outcomes_of word document_texts ≡ outcomes_written word readings }
{}

// Texts at which the lexer takes more than TOML 1.0.0 has give these events and reports.
pub fn strange_texts_are_read()
    ensures { told_by strange_texts ≡ as_given strange_texts }
{}

// The tokens of every text have one Eof, the last, and no two Whitespace in a row.
pub fn text_tokens_are_regular(text: &[u8])
    ensures { Regular (tokens_of text.now) }
{}
