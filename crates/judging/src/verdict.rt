// The verdict on a list of token records.
ghost use Rattle.std.specs.Prelude.{◌≡◌};
ghost use Rattle.judging.specs.Verdicts.{unjudged};

use token::refusal::Refusal;

// Whether the list fits; and if it was not judged, the refusal's number and its place, else 0 and 0. The number is what C gets, and what
// `Judged` speaks of.
#[derive(Clone, Copy)]
pub struct Verdict {
    pub fits: bool,
    pub refusal: u32,
    pub place: usize,
}

// Refusals 1 to 6: the list is not judged.
pub fn is_unjudged(refusal: u32) -> bool
    ensures { result ≡ unjudged refusal }
{
    refusal < Refusal::Events as u32 && 0 < refusal
}

pub fn answered(fits: bool, refusal: u32, place: usize) -> Verdict
    ensures { result ≡ record { fits = fits; refusal = refusal; place = place } }
{
    Verdict {
        fits,
        refusal,
        place,
    }
}
