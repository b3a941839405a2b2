// Quotes: whether three stand at a place, and how many more behind them.
ghost use Rattle.std.specs.Prelude.{◌≡◌, ◌≤◌, length, drop};
ghost use Rattle.places.specs.Places.{Scanned, starts_with};
ghost use Rattle.scan.specs.Lexer.{three_of, up_to_two};

use places::is_at;

// Whether three of the byte stand at `at`: a multi-line string's delimiter.
#[tactic(auto, using(places::specs::PlaceLaws::peeks_within, scan::specs::ScanLaws::three_first, scan::specs::ScanLaws::three_second, scan::specs::ScanLaws::three_third))]
pub fn starts_three(text: &[u8], at: usize, quote: u8) -> bool
    requires { at ≤ length text.now }
    ensures { result ≡ starts_with (three_of quote) (drop at text.now) }
{
    is_at(text, at, quote) && is_at(text, at + 1, quote) && is_at(text, at + 2, quote)
}

// Behind up to two more quotes.
#[tactic(auto, using(places::specs::PlaceLaws::peeks_within, scan::specs::ScanLaws::up_none, scan::specs::ScanLaws::up_one, scan::specs::ScanLaws::up_two))]
pub fn up_to_two(text: &[u8], at: usize, quote: u8) -> usize
    requires { at ≤ length text.now }
    ensures { Scanned (λ bs. up_to_two quote bs) text.now at result }
{
    if !is_at(text, at, quote) {
        at
    } else if !is_at(text, at + 1, quote) {
        at + 1
    } else {
        at + 2
    }
}
