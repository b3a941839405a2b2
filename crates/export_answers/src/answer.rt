// The answer as a C structure.
ghost use Rattle.std.specs.Prelude.{◌≡◌};
ghost use Rattle.export_answers.specs.Exported.{plain};

use rules::answer::Answer;

// The refusal's number (0 if none), its place, and how many events and errors there are.
#[repr(C)]
#[derive(Clone, Copy)]
pub struct ExportedAnswer {
    pub refusal: u32,
    pub place: usize,
    pub events: usize,
    pub errors: usize,
}

// The C structure of an answer.
impl From<Answer> for ExportedAnswer {
    ghost from_gives = { λ r e. plain e ≡ r };

    fn from(r: Answer) -> ExportedAnswer {
        ExportedAnswer {
            refusal: r.refusal,
            place: r.place,
            events: r.events,
            errors: r.errors,
        }
    }
}

// The answer that a C structure holds.
impl From<ExportedAnswer> for Answer {
    ghost from_gives = { λ e r. r ≡ plain e };

    fn from(e: ExportedAnswer) -> Answer {
        Answer {
            refusal: e.refusal,
            place: e.place,
            events: e.events,
            errors: e.errors,
        }
    }
}
