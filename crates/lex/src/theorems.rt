// What holds of the tokens of every text, as contracts of functions that do nothing.
ghost use Rattle.std.specs.Prelude.{◌≡◌};
ghost use Rattle.lex.specs.Texts.{texts, as_ruled, as_written};
ghost use Rattle.lex.specs.Tokens.{TokensEndToEnd, RecordsReadAgain};

// The tokens lie end to end from the base to the text's end, each as long as its kind allows, at most one more than bytes.
pub fn tokens_lie_end_to_end(text: &[u8])
    ensures { TokensEndToEnd text.now }
{}

// The records of a text within the limits stand for its tokens, and pass the check of a list.
pub fn records_are_read_again(text: &[u8])
    ensures { RecordsReadAgain text.now }
{}

// The rules read each text of the list as it is told there: document 01's, and those where the tokens differ from TOML 1.0.0.
pub fn texts_as_read()
    ensures { as_ruled texts ≡ as_written texts }
{}
