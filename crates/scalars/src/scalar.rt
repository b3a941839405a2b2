// Scalars.
ghost use Rattle.token.specs.Tokens.{Good, tokens_at};
ghost use Rattle.rules.specs.Scalar.{starting_of, on_scalar};
ghost use Rattle.output.specs.Pour.{bufs};
ghost use Rattle.output.specs.Walks.{Goes};
ghost use Rattle.scalars.specs.ScalarWalks.{Starts, Reached, Extends};

use classes::scalar::{in_scalar, starting_of};
use output::emitting::{Counts, Walk, emit};
use rules::event::{Encoding, Event};
use rules::scalar::{InScalar, Starting};
use token::cursor::{Cursor, Token};
use token::kind::Kind;

// How far an unquoted scalar goes: the cursor past it, and where it ends.
#[derive(Clone, Copy)]
pub struct Reach {
    pub cur: Cursor,
    pub end: u32,
}

// What a scalar is, and how far it goes.
#[derive(Clone, Copy)]
pub struct Extent {
    pub cur: Cursor,
    pub end: u32,
    pub encoding: Encoding,
}

// How far an unquoted scalar goes that reaches to `sofar`.
fn reach_of(s: &[u8], c: Cursor, sofar: u32) -> Reach
    requires { Good s.now c }
    ensures { Reached s.now c sofar result }
{
    let mut cur = c;
    let mut end = sofar;
    while let Some((t, past)) = cur.next(s) {
        match in_scalar(t.kind) {
            InScalar::Dot | InScalar::Atom => {
                end = t.end;
                cur = past;
            }
            InScalar::Whitespace => {
                let Some((second, beyond)) = past.next_token_if(s, Kind::Atom) else {
                    return Reach { cur, end };
                };
                end = second.end;
                cur = beyond;
            }
            InScalar::Other => {
                return Reach { cur, end };
            }
        }
    }
    Reach { cur, end }
}

// What the scalar that starts with t is, and how far it goes.
fn extent_of(s: &[u8], t: Token, c: Cursor) -> Extent
    requires good { Good s.now c }
    requires starts { Starts (starting_of t.kind) }
    ensures { Extends s.now t c result }
{
    let end = t.end;
    match starting_of(t.kind) {
        Starting::Quoted(encoding) => Extent {
            cur: c,
            end,
            encoding,
        },
        Starting::Unquoted => {
            let r = reach_of(s, c, end);
            Extent {
                cur: r.cur,
                end: r.end,
                encoding: Encoding::None,
            }
        }
        // Nothing comes here, and that is proved.
        Starting::Never => unreachable!(),
    }
}

// The scalar that starts with t.
pub fn on_scalar(
    s: &[u8],
    t: Token,
    c: Cursor,
    m: Counts,
    events: &mut [u32],
    errors: &mut [u32],
) -> Walk
    requires good { Good s.now c }
    requires starts { Starts (starting_of t.kind) }
    ensures { Goes s.now (on_scalar t.kind t.start t.end (tokens_at s.now c)) c (bufs events.old errors.old m) events.new errors.new result }
{
    let r = extent_of(s, t, c);
    let e = r.encoding;
    let n = emit(events, m, Event::Scalar(e), t.start, r.end);
    let cur = r.cur;
    Walk { cur, n }
}
