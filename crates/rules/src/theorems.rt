// Theorems about the rules alone, each the contract of a function that does nothing.
ghost use Rattle.std.specs.Prelude.{◌≡◌};
ghost use Rattle.rules.specs.Answer.{as_crate};
ghost use Rattle.rules.specs.declared.options.Mode.{Mode};
ghost use Rattle.rules.specs.Texts.{texts, further_texts, as_ruled, as_written, ruled_outcomes, written_outcomes};
ghost use Rattle.rules.specs.LineTexts.{line_texts, lines_ruled, lines_written};

// The rules read each of document 01's fourteen texts as it was read by hand.
pub fn texts_as_read()
    ensures { as_ruled Mode.Crate texts ≡ as_written texts }
{}

// From record bytes: the answer, and every word of both buffers, which all hold `word` beforehand.
pub fn texts_in_buffers(word: u32)
    ensures { ruled_outcomes as_crate word texts ≡ written_outcomes word texts }
{}

// Further texts, not of document 01, are read as the oracle reads them.
pub fn further_texts_as_read()
    ensures { as_ruled Mode.Crate further_texts ≡ as_written further_texts }
{}

// The lines of texts in which they surprise.
pub fn lines_as_read()
    ensures { lines_ruled Mode.Crate line_texts ≡ lines_written line_texts }
{}
