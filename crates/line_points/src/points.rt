// Points of a list where its lines are counted, and how one is found on from another.
ghost use Rattle.std.specs.Prelude.{◌≡◌, ◌≤◌};
ghost use Rattle.token.specs.Limits.{max_records};
ghost use Rattle.token.specs.Records.{count};
ghost use Rattle.rules.specs.Lines.{newlines};
ghost use Rattle.line_points.specs.Points.{Begins, Counted, Numbered, Reached, Toward};

use token::cursor::Cursor;
use token::kind::Kind;

// A place in the list; and its line, one more than there are Newline tokens before it.
#[derive(Clone, Copy)]
pub struct LinePoint {
    pub cur: Cursor,
    pub line: u32,
}

// The start of the list, on line 1.
pub fn first_line(base: u32) -> LinePoint
    ensures { Begins base result }
{
    LinePoint {
        cur: Cursor::new(base),
        line: 1,
    }
}

pub fn newlines(kind: Kind) -> u32
    ensures { result ≡ newlines kind }
{
    if kind == Kind::Newline { 1 } else { 0 }
}

// The point itself, or the start where the point lies behind the place.
fn not_behind(s: &[u8], p: LinePoint, at: u32) -> LinePoint
    requires { Counted s.now p.cur.base p }
    ensures { Toward s.now p.cur.base at result }
{
    if at < p.cur.place {
        first_line(p.cur.base)
    } else {
        p
    }
}

// The point of a place, on from another: past every token that ends at or before the place.
#[tactic(auto, using(crate::specs::PointLaws::line_fits, crate::specs::PointLaws::toward_behind))]
pub fn line_from(s: &[u8], p: LinePoint, at: u32) -> LinePoint
    requires counted { Counted s.now p.cur.base p }
    requires few_records { count s.now ≤ max_records }
    ensures { Numbered s.now p.cur.base at result }
{
    let mut point = not_behind(s, p, at);
    while let Some((t, past)) = point.cur.next(s) {
        if at < t.end {
            break;
        }
        point = LinePoint {
            cur: past,
            line: point.line + newlines(t.kind),
        };
    }
    point
}

// The point itself, or the start where the point lies behind the record.
fn not_past(s: &[u8], p: LinePoint, upto: usize) -> LinePoint
    requires { Counted s.now p.cur.base p }
    ensures { Counted s.now p.cur.base result × (result.cur.at ≤ upto) }
{
    if upto < p.cur.at {
        first_line(p.cur.base)
    } else {
        p
    }
}

// The point of a record, on from another; the end of the list, where the record is beyond it.
#[tactic(auto, using(crate::specs::PointLaws::line_fits))]
pub fn point_from(s: &[u8], p: LinePoint, upto: usize) -> LinePoint
    requires counted { Counted s.now p.cur.base p }
    requires few_records { count s.now ≤ max_records }
    ensures { Reached s.now p.cur.base upto result }
{
    let mut point = not_past(s, p, upto);
    while point.cur.at < upto {
        let Some((t, past)) = point.cur.next(s) else {
            break;
        };
        point = LinePoint {
            cur: past,
            line: point.line + newlines(t.kind),
        };
    }
    point
}
