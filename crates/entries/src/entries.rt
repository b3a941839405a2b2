// The four entries: record bytes, a base and two lent buffers in; the answer out, and the buffers filled.
ghost use Rattle.std.specs.Prelude.{◌≡◌};
ghost use Rattle.token.specs.Check.{checked};
ghost use Rattle.rules.specs.Entries.{document_entry, key_entry, simple_key_entry, value_entry};
ghost use Rattle.entry_steps.specs.Answers.{Answers};

use documents::document::document;
use dotted_keys::keys::key;
use entry_steps::steps::{answered, begin};
use output::emitting::{Counts, Walk};
use output::message::INVALID_KEY;
use rules::answer::Answer;
use rules::options::{Options, Settings};
use simple_keys::simple_key;
use token::cursor::Cursor;
use values::value::value;

// How many arrays and inline tables may be open within one another.
pub const MAX_DEPTH: u32 = 64;

// The walk of a document whose records are known to pass the check: a caller that wrote them itself has shown it, and nothing is asked again.
pub fn read_document(
    s: &[u8],
    base: u32,
    options: Options,
    events: &mut [u32],
    errors: &mut [u32],
) -> Answer
    requires { checked s.now base ≡ Ok tt }
    ensures { Answers options document_entry s.now base events.old errors.old events.new errors.new result }
{
    let c = Cursor::new(base);
    let m = Counts {
        events: 0,
        errors: 0,
    };
    let settings = Settings {
        levels: MAX_DEPTH,
        options,
    };
    let w = document(s, c, m, settings, events, errors);
    answered(s, options, w, events, errors)
}

pub fn parse_document(
    s: &[u8],
    base: u32,
    options: Options,
    events: &mut [u32],
    errors: &mut [u32],
) -> Answer
    ensures { Answers options document_entry s.now base events.old errors.old events.new errors.new result }
{
    match begin(s, base) {
        Err(answer) => answer,
        Ok(_) => read_document(s, base, options, events, errors),
    }
}

pub fn parse_key(
    s: &[u8],
    base: u32,
    options: Options,
    events: &mut [u32],
    errors: &mut [u32],
) -> Answer
    ensures { Answers options key_entry s.now base events.old errors.old events.new errors.new result }
{
    match begin(s, base) {
        Err(answer) => answer,
        Ok((c, m)) => {
            let k = key(s, c, m, INVALID_KEY, events, errors);
            let cur = k.cur;
            let n = k.n;
            answered(s, options, Ok(Walk { cur, n }), events, errors)
        }
    }
}

pub fn parse_simple_key(
    s: &[u8],
    base: u32,
    options: Options,
    events: &mut [u32],
    errors: &mut [u32],
) -> Answer
    ensures { Answers options simple_key_entry s.now base events.old errors.old events.new errors.new result }
{
    match begin(s, base) {
        Err(answer) => answer,
        Ok((c, m)) => {
            let w = simple_key(s, c, m, INVALID_KEY, events, errors);
            answered(s, options, Ok(w), events, errors)
        }
    }
}

pub fn parse_value(
    s: &[u8],
    base: u32,
    options: Options,
    events: &mut [u32],
    errors: &mut [u32],
) -> Answer
    ensures { Answers options value_entry s.now base events.old errors.old events.new errors.new result }
{
    match begin(s, base) {
        Err(answer) => answer,
        Ok((c, m)) => {
            let settings = Settings {
                levels: MAX_DEPTH,
                options,
            };
            let w = value(s, c, m, settings, events, errors);
            answered(s, options, w, events, errors)
        }
    }
}
