// The verdict as a C structure.
ghost use Rattle.std.specs.Prelude.{◌≡◌};
ghost use Rattle.export_texts.specs.ExportedVerdicts.{plain_verdict, ExportedVerdictsDetermined};

use judging::theorems::verdicts_are_determined;
use judging::verdict::Verdict;

// Whether the list fits; and if it was not judged, the refusal's number and its place, else 0 and 0.
#[repr(C)]
#[derive(Clone, Copy)]
pub struct ExportedVerdict {
    pub fits: bool,
    pub refusal: u32,
    pub place: usize,
}

// The C structure of a verdict.
impl From<Verdict> for ExportedVerdict {
    ghost from_gives = { λ v e. plain_verdict e ≡ v };

    fn from(v: Verdict) -> ExportedVerdict {
        ExportedVerdict {
            fits: v.fits,
            refusal: v.refusal,
            place: v.place,
        }
    }
}

// Two C structures, each with the event buffer behind it, that both meet the contract of `deckmarten_fits` for the same input are equal.
pub fn exported_verdicts_are_determined(records: &[u8], base: u32, events: &[u32])
    ensures { ExportedVerdictsDetermined records.now base events.now }
{
    verdicts_are_determined(records, base, events)
}
