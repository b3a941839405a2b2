// The event of the bracket that opens an array or an inline table.
#![tactic(auto)]

ghost use Rattle.std.specs.Prelude.{◌≡◌, List, ℕ};
ghost use Rattle.token.specs.Tokens.{Tok};
ghost use Rattle.rules.specs.Receiver as receiver;
ghost use Rattle.output.specs.Pour.{bufs, put};

use output::emitting::{Counts, emit};
use rules::event::Event;
use token::cursor::Token;

// The bracket t opens an array.
pub fn array_open(events: &mut [u32], n: Counts, t: Token) -> Counts
    ensures { (all : List Tok) (errors : List ℕ) → bufs events.new errors result ≡ put all (receiver.array_open t.start t.end) (bufs events.old errors n) }
{
    emit(events, n, Event::ArrayOpen, t.start, t.end)
}

// The bracket t opens an inline table.
pub fn table_open(events: &mut [u32], n: Counts, t: Token) -> Counts
    ensures { (all : List Tok) (errors : List ℕ) → bufs events.new errors result ≡ put all (receiver.inline_table_open t.start t.end) (bufs events.old errors n) }
{
    emit(events, n, Event::InlineTableOpen, t.start, t.end)
}
