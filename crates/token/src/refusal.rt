// Why a text or a list is not read to its end, or not stored whole.
ghost use Rattle.std.specs.Prelude.{◌≡◌};
ghost use Rattle.token.specs.Refusals.{refusal_number};

// The one list of refusals for all functions, in the order of docs/LAYOUT.md.
#[derive(Clone, Copy, PartialEq, Eq)]
pub enum Refusal {
    // the byte length is no multiple of 6
    PartialRecord = 1,
    // more than 65,536 records
    Records,
    // a kind outside 1 to 16
    Kind,
    // a length wrong for its kind
    Length,
    // the base, or a record's end, above 16,777,216
    Bytes,
    // a 65th array or inline table would be open
    Depth,
    // the events do not fit
    Events,
    // the errors do not fit
    Errors,
    // a text of more than 16,777,216 bytes
    TextTooLong,
    // a text that is not UTF-8
    NotUtf8,
    // the tokens do not fit
    Tokens,
    // the run is not quiet
    NotQuiet,
    // the index does not fit
    Index,
    // the mistakes do not fit
    Mistakes,
    // an unknown mode
    Mode,
}

impl Refusal {
    // The number that a caller gets.
    pub fn number(self) -> u32
        ensures { result ≡ refusal_number self }
    {
        self as u32
    }
}
