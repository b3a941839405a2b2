// The last comma before a place of the list, found by looking back; what an earlier search has found is not looked at again.
ghost use Rattle.std.specs.Prelude.{◌≡◌, List, ℕ, ◌≤◌};
ghost use Rattle.token.specs.declared.cursor.Sought.{Sought};
ghost use Rattle.token.specs.Search.{is_sought};
ghost use Rattle.line_points.specs.Points.{Counted};
ghost use Rattle.blamed_commas.specs.Commas.{Known};

use line_points::points::{LinePoint, newlines};
use token::kind::Kind;
use token::record::{kind_at, length_at};

// The last Comma before the record `upto`: the record behind it, 0 if there is none; its span; its line. A number and no Option, since one test,
// whether it is past the first record that counts, tells of one that is too early and of none.
#[derive(Clone, Copy)]
pub struct Comma {
    pub upto: usize,
    pub behind: usize,
    pub start: u32,
    pub end: u32,
    pub line: u32,
}

// Before the first record there is none.
pub fn no_comma() -> Comma
    ensures { (result.upto ≡ 0) × (result.behind ≡ 0) }
{
    Comma {
        upto: 0,
        behind: 0,
        start: 0,
        end: 0,
        line: 0,
    }
}

fn is_comma(kind: Kind) -> bool
    ensures { result ≡ is_sought Sought.Comma kind }
{
    kind == Kind::Comma
}

// What is known itself, or nothing where it goes past the record.
fn not_later(known: Comma, upto: usize) -> Comma
    ensures { ((s : List ℕ) (base : ℕ) → Known s base known → Known s base result) × (result.upto ≤ upto) }
{
    if upto < known.upto { no_comma() } else { known }
}

// The last comma before a point: back from it to where the search before began, whose comma it is if there is none on the way. Along the errors
// these points rise, so that no record is looked at twice.
pub fn comma_from(s: &[u8], known: Comma, p: LinePoint) -> Comma
    requires counted { Counted s.now p.cur.base p }
    requires known { Known s.now p.cur.base known }
    ensures { Known s.now p.cur.base result × (result.upto ≡ p.cur.at) }
{
    let upto = p.cur.at;
    let before = not_later(known, upto);
    let mut end = p.cur.place;
    let mut line = p.line;
    for i in (before.upto..upto).rev() {
        let start = end - length_at(s, i);
        let kind = kind_at(s, i);
        if is_comma(kind) {
            return Comma {
                upto,
                behind: i + 1,
                start,
                end,
                line,
            };
        }
        line -= newlines(kind);
        end = start;
    }
    Comma { upto, ..before }
}
