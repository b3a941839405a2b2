// The yes of a text but for the run: a text to the records that are to be judged.
ghost use Rattle.std.specs.Prelude.{◌≡◌, false};
ghost use Rattle.text_steps.specs.Begun.{BeginsVerdict};

use judging::verdict::Verdict;
use lex::lex;
use token::checked::MAX_RECORDS;
use token::refusal::Refusal;

fn not_judged(refusal: u32, place: usize) -> Verdict
    ensures { result ≡ record { fits = false; refusal = refusal; place = place } }
{
    Verdict {
        fits: false,
        refusal,
        place,
    }
}

// Lexes: where the tokens of a text start, and how many records are to be judged; or the verdict on a text that is not judged. Of the records nothing
// is asked again but that they are not too many.
pub fn begin_verdict(text: &[u8], records: &mut [u8]) -> Result<(u32, usize), Verdict>
    ensures { BeginsVerdict text.now records.old records.new result }
{
    let lexed = lex(text, records);
    let refusal = lexed.refusal;
    if refusal != 0 {
        let place = lexed.place;
        return Err(not_judged(refusal, place));
    }
    let count = lexed.records;
    if MAX_RECORDS < count {
        return Err(not_judged(Refusal::Records as u32, MAX_RECORDS));
    }
    let base = lexed.base;
    Ok((base, count))
}
