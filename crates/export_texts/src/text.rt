// Answers to a text as C structures: the lexer's, and the joined entry's.
ghost use Rattle.std.specs.Prelude.{◌≡◌};
ghost use Rattle.export_texts.specs.ExportedTexts.{plain_lexed, plain_text, ExportedTextsDetermined};

use lex::Lexed;
use text_rules::answer::TextAnswer;
use text_steps::theorems::text_verdicts_are_determined;
use token::refusal::Refusal;

// The refusal's number (0 if none) and its place; where the tokens start; how many records there are.
#[repr(C)]
#[derive(Clone, Copy)]
pub struct ExportedLexed {
    pub refusal: u32,
    pub place: usize,
    pub base: u32,
    pub records: usize,
}

// The same, and how many events and errors there are.
#[repr(C)]
#[derive(Clone, Copy)]
pub struct ExportedTextAnswer {
    pub refusal: u32,
    pub place: usize,
    pub base: u32,
    pub records: usize,
    pub events: usize,
    pub errors: usize,
}

// The C structure of the lexer's answer.
impl From<Lexed> for ExportedLexed {
    ghost from_gives = { λ r e. plain_lexed e ≡ r };

    fn from(r: Lexed) -> ExportedLexed {
        ExportedLexed {
            refusal: r.refusal,
            place: r.place,
            base: r.base,
            records: r.records,
        }
    }
}

// The C structure of the joined entry's answer.
impl From<TextAnswer> for ExportedTextAnswer {
    ghost from_gives = { λ r e. plain_text e ≡ r };

    fn from(r: TextAnswer) -> ExportedTextAnswer {
        ExportedTextAnswer {
            refusal: r.refusal,
            place: r.place,
            base: r.base,
            records: r.records,
            events: r.events,
            errors: r.errors,
        }
    }
}

// That of the joined entry to an unknown mode.
pub fn exported_unknown() -> ExportedTextAnswer
    ensures { plain_text result ≡ record { refusal = 15; place = 0; base = 0; records = 0; events = 0; errors = 0 } }
{
    ExportedTextAnswer {
        refusal: Refusal::Mode as u32,
        place: 0,
        base: 0,
        records: 0,
        events: 0,
        errors: 0,
    }
}

// Two C structures, each with the buffers that it leaves, that both meet the contract of one of the functions over texts for the same input are equal.
pub fn exported_texts_are_determined(text: &[u8], records: &[u8], events: &[u32], errors: &[u32])
    ensures { ExportedTextsDetermined text.now records.now events.now errors.now }
{
    text_verdicts_are_determined(text, records, events)
}
