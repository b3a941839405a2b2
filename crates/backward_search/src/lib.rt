// The search backward from a cursor: the nearest token before it that is one of those sought.
#![tactic(auto)]

ghost use Rattle.std.specs.Prelude.{◌≡◌};
ghost use Rattle.token.specs.Kinds.{in_search};
ghost use Rattle.token.specs.Tokens.{Good, all_tokens};
ghost use Rattle.token.specs.Search.{is_sought, nearest_between};

use token::cursor::{Cursor, Sought};
use token::kind::{InSearch, Kind};
use token::record::{kind_at, length_at};
use token::span::Span;

// What a kind is to a search.
pub fn in_search(kind: Kind) -> InSearch
    ensures { result ≡ in_search kind }
{
    match kind {
        Kind::Comma => InSearch::Comma,
        Kind::Whitespace => InSearch::Whitespace,
        Kind::Comment | Kind::Newline | Kind::Eof => InSearch::Trivia,
        _ => InSearch::Other,
    }
}

fn is_sought(what: Sought, kind: Kind) -> bool
    ensures { result ≡ is_sought what kind }
{
    let class = in_search(kind);
    match what {
        Sought::Significant => !matches!(class, InSearch::Whitespace | InSearch::Trivia),
        Sought::Comma => matches!(class, InSearch::Comma),
        Sought::Solid => !matches!(class, InSearch::Whitespace),
    }
}

// The nearest earlier token that is sought and not before the record `first`, or `none`.
pub fn nearest_before(c: Cursor, s: &[u8], what: Sought, none: Span, first: usize) -> Span
    requires { Good s.now c }
    ensures { result ≡ nearest_between what none first c.at (all_tokens s.now c.base) }
{
    let mut place = c.place;
    for at in (first..c.at).rev() {
        let end = place;
        place -= length_at(s, at);
        if is_sought(what, kind_at(s, at)) {
            return Span { start: place, end };
        }
    }
    none
}
