// The list of a text's mistakes, from what the joined entry read of it; as definitions, with the theorems about it. Nothing is read here.
#![tactic(auto)]

pub mod theorems;

ghost use Rattle.std.specs.Prelude.{◌≡◌};
ghost use Rattle.text_listing.specs.Checking.{checked_answer};
ghost use Rattle.text_listing.specs.ReadTexts.{WasRead, ListsRead};

use mistakes::mistakes_of;
use rules::answer::Answer;
use text_rules::answer::TextAnswer;

// As the joined entry's answer, and how many mistakes there are. The text fits exactly if there is no refusal and no mistake.
#[derive(Clone, Copy)]
pub struct TextCheck {
    pub refusal: u32,
    pub place: usize,
    pub base: u32,
    pub records: usize,
    pub events: usize,
    pub errors: usize,
    pub mistakes: usize,
}

// The joined entry's answer with what was listed.
fn checked(read: TextAnswer, refusal: u32, place: usize, mistakes: usize) -> TextCheck
    ensures { result ≡ checked_answer read (record { refusal = refusal; place = place; mistakes = mistakes }) }
{
    TextCheck {
        refusal,
        place,
        base: read.base,
        records: read.records,
        events: read.events,
        errors: read.errors,
        mistakes,
    }
}

// The mistakes of what was read. The lexer's records are not checked again.
pub fn list_read(
    read: TextAnswer,
    records: &[u8],
    events: &[u32],
    errors: &[u32],
    mistakes: &mut [u32],
) -> TextCheck
    requires { WasRead read records.now events.now errors.now }
    ensures { ListsRead read records.now events.now errors.now mistakes.old mistakes.new result }
{
    let refusal = read.refusal;
    let place = read.place;
    if refusal != 0 {
        return checked(read, refusal, place, 0);
    }
    let base = read.base;
    let size = 6 * read.records;
    let answer = Answer {
        refusal,
        place,
        events: read.events,
        errors: read.errors,
    };
    let found = mistakes_of(&records[..size], base, answer, events, errors, mistakes);
    checked(read, found.refusal, found.place, found.mistakes)
}
