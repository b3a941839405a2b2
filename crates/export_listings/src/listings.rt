// Answers of the list of mistakes as C structures: of a run, and of a text.
ghost use Rattle.std.specs.Prelude.{◌≡◌};
ghost use Rattle.export_answers.specs.Exported.{plain};
ghost use Rattle.export_listings.specs.ExportedMistakes.{plain_listed, plain_check, ExportedMistakesDetermined};

use export_answers::answer::ExportedAnswer;
use mistake_rules::answer::Listed;
use text_listing::TextCheck;

// The refusal's number (0 if none), its place, and how many mistakes there are.
#[repr(C)]
#[derive(Clone, Copy)]
pub struct ExportedListed {
    pub refusal: u32,
    pub place: usize,
    pub mistakes: usize,
}

// The refusal's number (0 if none) and its place; where the tokens start; how many records, events, errors and mistakes there are.
#[repr(C)]
#[derive(Clone, Copy)]
pub struct ExportedCheck {
    pub refusal: u32,
    pub place: usize,
    pub base: u32,
    pub records: usize,
    pub events: usize,
    pub errors: usize,
    pub mistakes: usize,
}

// The C structure of the listing's answer.
impl From<Listed> for ExportedListed {
    ghost from_gives = { λ r e. plain_listed e ≡ r };

    fn from(r: Listed) -> ExportedListed {
        ExportedListed {
            refusal: r.refusal,
            place: r.place,
            mistakes: r.mistakes,
        }
    }
}

// The C structure of the check's answer.
impl From<TextCheck> for ExportedCheck {
    ghost from_gives = { λ r e. plain_check e ≡ r };

    fn from(r: TextCheck) -> ExportedCheck {
        ExportedCheck {
            refusal: r.refusal,
            place: r.place,
            base: r.base,
            records: r.records,
            events: r.events,
            errors: r.errors,
            mistakes: r.mistakes,
        }
    }
}

// Two C structures, each with the buffers that it leaves, that both meet the contract of one of the functions that list mistakes for the same input are equal.
pub fn exported_mistakes_are_determined(
    bytes: &[u8],
    base: u32,
    answer: ExportedAnswer,
    records: &[u8],
    events: &[u32],
    errors: &[u32],
    mistakes: &[u32],
)
    ensures { ExportedMistakesDetermined bytes.now base (plain answer) records.now events.now errors.now mistakes.now }
{}
