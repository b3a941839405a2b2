// The numbers of events and of encodings.
ghost use Rattle.std.specs.Prelude.{◌≡◌};
ghost use Rattle.rules.specs.Words.{encoding_number, event_number, encoding_of};

use rules::event::{Encoding, Event};

pub fn encoding_number(e: Encoding) -> u32
    ensures { result ≡ encoding_number e }
{
    e as u32
}

// A table, and no cast: an event that holds an encoding has no number of its own.
pub fn event_number(e: Event) -> u32
    ensures { result ≡ event_number e }
{
    match e {
        Event::StdTableOpen => 1,
        Event::StdTableClose => 2,
        Event::ArrayTableOpen => 3,
        Event::ArrayTableClose => 4,
        Event::SimpleKey(_) => 5,
        Event::KeySep => 6,
        Event::KeyValSep => 7,
        Event::Scalar(_) => 8,
        Event::ValueSep => 9,
        Event::ArrayOpen => 10,
        Event::ArrayClose => 11,
        Event::InlineTableOpen => 12,
        Event::InlineTableClose => 13,
        Event::Whitespace => 14,
        Event::Comment => 15,
        Event::Newline => 16,
        Event::Error => 17,
    }
}

// The encoding's number of an event: 0 for all but keys and scalars.
pub fn encoding_of(e: Event) -> u32
    ensures { result ≡ encoding_of e }
{
    match e {
        Event::SimpleKey(c) | Event::Scalar(c) => encoding_number(c),
        _ => 0,
    }
}
