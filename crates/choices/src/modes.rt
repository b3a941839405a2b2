// Modes by their numbers, as programs in C hand them over.
ghost use Rattle.std.specs.Prelude.{◌≡◌};
ghost use Rattle.choices.specs.Modes.{chosen_by, unknown_mode};

use rules::answer::Answer;
use rules::options::{Mode, Options};
use token::refusal::Refusal;

// What a mode's number stands for, if for anything: 0 is crate mode, 1 brace mode.
pub fn choose(mode: u32) -> Option<Options>
    ensures { result ≡ chosen_by mode }
{
    match mode {
        0 => Some(Options { mode: Mode::Crate }),
        1 => Some(Options { mode: Mode::Brace }),
        _ => None,
    }
}

// The answer to an unknown mode.
pub fn unknown_mode() -> Answer
    ensures { result ≡ unknown_mode }
{
    Answer {
        refusal: Refusal::Mode as u32,
        place: 0,
        events: 0,
        errors: 0,
    }
}
