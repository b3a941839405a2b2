// Which error records go before a piece, and whether one accounts for it. Words behind the last whole record do not count.
ghost use Rattle.std.specs.Prelude.{◌≡◌, ◌/◌, ◌≤◌, length};
ghost use Rattle.rules.specs.Answer.{error_size};
ghost use Rattle.mistake_rules.specs.Mistakes.{goes_before, accounts_for};
ghost use Rattle.mistake_steps.specs.Steps.{errors_left, accounted, Passes};

use pieces::messages::{BRACKET_NOT_CLOSED, MULTI_LINE_STRING};
use pieces::pieces::Piece;
use rules::answer::ERROR_WORDS;

fn goes_before(start: u32, p: Piece) -> bool
    ensures { result ≡ goes_before start p }
{
    if p.message == BRACKET_NOT_CLOSED {
        start != p.start
    } else {
        start < p.start
    }
}

fn accounts_for(start: u32, p: Piece) -> bool
    ensures { result ≡ accounts_for start p }
{
    p.message != MULTI_LINE_STRING && start == p.start
}

// The first record, from record r on, that does not go before the piece; how many records there are if there is none.
pub fn passed_by(errors: &[u32], r: usize, p: Piece) -> usize
    requires { r ≤ length errors.now / error_size }
    ensures { Passes (length errors.now / error_size) errors.now r p result }
{
    let m = errors.len() / ERROR_WORDS;
    for j in r..m {
        if !goes_before(errors[j * ERROR_WORDS + 4], p) {
            return j;
        }
    }
    m
}

// Whether record r, if there are more than r, accounts for the piece.
pub fn is_accounted(errors: &[u32], r: usize, p: Piece) -> bool
    ensures { result ≡ accounted p (errors_left (length errors.now / error_size) r errors.now) }
{
    r < errors.len() / ERROR_WORDS && accounts_for(errors[r * ERROR_WORDS + 4], p)
}
