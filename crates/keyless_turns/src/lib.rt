// A turn of the document loop at a token with which no key starts, and no document ends.
#![tactic(auto)]

ghost use Rattle.token.specs.Tokens.{Good, tokens_at};
ghost use Rattle.output.specs.Pour.{bufs};
ghost use Rattle.output.specs.Walks.{Goes};
ghost use Rattle.keyless_turns.specs.Keyless.{keyless};

use expression_strays::strays::{on_missing_expression_key, on_missing_std_table};
use output::emitting::{Counts, Walk, emit};
use rules::document::InDocument;
use rules::event::Event;
use skip_lines::skipping::on_comment;
use tables::table::on_table;
use token::cursor::{Cursor, Token};

// The token t, which is x to the start of an expression. Where it is the start of a key, or the end, nothing is read here. It has one
// call site, so that it is compiled into its caller.
pub fn keyless_turn(
    s: &[u8],
    x: InDocument,
    t: Token,
    c: Cursor,
    m: Counts,
    events: &mut [u32],
    errors: &mut [u32],
) -> Walk
    requires { Good s.now c }
    ensures { Goes s.now (keyless x t.start t.end (tokens_at s.now c)) c (bufs events.old errors.old m) events.new errors.new result }
{
    match x {
        InDocument::OpenSquare => on_table(s, t, c, m, events, errors),
        InDocument::CloseSquare => on_missing_std_table(s, t, c, m, events, errors),
        InDocument::Stray => on_missing_expression_key(s, t, c, m, events, errors),
        InDocument::Whitespace => {
            let n = emit(events, m, Event::Whitespace, t.start, t.end);
            Walk { cur: c, n }
        }
        InDocument::Newline => {
            let n = emit(events, m, Event::Newline, t.start, t.end);
            Walk { cur: c, n }
        }
        InDocument::Comment => on_comment(s, t, c, m, events, errors),
        _ => Walk { cur: c, n: m },
    }
}
