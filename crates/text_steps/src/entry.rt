// The joined entry but for the run: a text to the records that are to be read, and what was read to its answer.
ghost use Rattle.std.specs.Prelude.{◌≡◌};
ghost use Rattle.text_steps.specs.Begun.{BeginsText};

use lex::lex;
use rules::answer::Answer;
use text_rules::answer::TextAnswer;
use token::checked::MAX_RECORDS;
use token::refusal::Refusal;

// Lexes: where the tokens of a text start, and how many records are to be read; or the answer to a text that is not read. The records are the lexer's
// and pass the check, but that there may be too many: so only they are counted.
pub fn begin_text(text: &[u8], records: &mut [u8]) -> Result<(u32, usize), TextAnswer>
    ensures { BeginsText text.now records.old records.new result }
{
    let lexed = lex(text, records);
    let refusal = lexed.refusal;
    let place = lexed.place;
    let base = lexed.base;
    let count = lexed.records;
    if refusal != 0 {
        return Err(TextAnswer {
            refusal,
            place,
            base,
            records: count,
            events: 0,
            errors: 0,
        });
    }
    if MAX_RECORDS < count {
        return Err(TextAnswer {
            refusal: Refusal::Records as u32,
            place: MAX_RECORDS,
            base,
            records: count,
            events: 0,
            errors: 0,
        });
    }
    Ok((base, count))
}

// The answer of the run with where the tokens start and how many records there are.
pub fn text_answer(base: u32, count: usize, read: Answer) -> TextAnswer
    ensures { result ≡ record { refusal = read.refusal; place = read.place; base = base; records = count; events = read.events; errors = read.errors } }
{
    TextAnswer {
        refusal: read.refusal,
        place: read.place,
        base,
        records: count,
        events: read.events,
        errors: read.errors,
    }
}
