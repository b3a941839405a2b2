// Tables and array tables.
ghost use Rattle.token.specs.Tokens.{Good, tokens_at};
ghost use Rattle.rules.specs.Table.{on_table, header};
ghost use Rattle.output.specs.Pour.{bufs};
ghost use Rattle.output.specs.Walks.{Goes};

use dotted_keys::keys::key;
use key_spaces::opt_whitespace;
use output::emitting::{Counts, Walk, emit};
use output::message::INVALID_TABLE;
use rules::event::Event;
use table_ends::{close_table, unclosed_table};
use token::cursor::{Cursor, Token};
use token::kind::Kind;

// After the opening, of which the first bracket is `head`: the key, and the close.
fn table_header(
    s: &[u8],
    head: Token,
    c: Cursor,
    m: Counts,
    array: bool,
    events: &mut [u32],
    errors: &mut [u32],
) -> Walk
    requires { Good s.now c }
    ensures { Goes s.now (header array head.start head.end (tokens_at s.now c)) c (bufs events.old errors.old m) events.new errors.new result }
{
    let v = opt_whitespace(s, c, m, events, errors);
    let from = v.cur;
    let i = v.n;
    let k = key(s, from, i, INVALID_TABLE, events, errors);
    let behind = k.cur;
    let j = k.n;
    let w = opt_whitespace(s, behind, j, events, errors);
    let cur = w.cur;
    let n = w.n;
    let Some((close, past)) = cur.next_token_if(s, Kind::RightSquareBracket) else {
        let valid = k.valid;
        return unclosed_table(s, head, cur, n, array, valid, events, errors);
    };
    close_table(s, head, close, past, n, array, events, errors)
}

// The table that `head` begins; a `[` directly behind it makes an array table.
pub fn on_table(
    s: &[u8],
    head: Token,
    c: Cursor,
    m: Counts,
    events: &mut [u32],
    errors: &mut [u32],
) -> Walk
    requires { Good s.now c }
    ensures { Goes s.now (on_table head.start head.end (tokens_at s.now c)) c (bufs events.old errors.old m) events.new errors.new result }
{
    let Some((second, past)) = c.next_token_if(s, Kind::LeftSquareBracket) else {
        let n = emit(events, m, Event::StdTableOpen, head.start, head.end);
        return table_header(s, head, c, n, false, events, errors);
    };
    let n = emit(events, m, Event::ArrayTableOpen, head.start, second.end);
    table_header(s, head, past, n, true, events, errors)
}
