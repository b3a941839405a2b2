// What the walk left open of each error: the line of its unexpected start, and of a trailing comma where the comma is. One pass over the errors when
// the walk is over, so that no walk counts lines or looks for commas.
ghost use Rattle.std.specs.Prelude.{◌≡◌, ◌*◌, ◌≤◌, length};
ghost use Rattle.token.specs.Limits.{max_records, max_end};
ghost use Rattle.token.specs.Laid.{Laid};
ghost use Rattle.token.specs.Records.{count, start_at};
ghost use Rattle.token.specs.Tokens.{all_tokens};
ghost use Rattle.rules.specs.Answer.{error_size};
ghost use Rattle.rules.specs.Words.{first_sought};
ghost use Rattle.line_numbers.specs.Numbering.{numbered};
ghost use Rattle.line_points.specs.Points.{Counted};
ghost use Rattle.blamed_commas.specs.Commas.{Known};
ghost use Rattle.line_numbers.specs.Placing.{Places};

use blamed_commas::commas::{Comma, comma_from, no_comma};
use line_points::points::{LinePoint, first_line, line_from, point_from};
use rules::answer::ERROR_WORDS;
use rules::options::Mode;

// The unexpected span of an error and its line; and the point and the comma that were found with them, from which the next error's are found. Along
// the errors the places rise, but for one fall where the list ends: so the whole pass is linear.
#[derive(Clone, Copy)]
pub struct Placed {
    pub start: u32,
    pub end: u32,
    pub line: u32,
    pub point: LinePoint,
    pub comma: Comma,
}

// The first record at which a comma counts: any, or the one behind the `{`.
fn first_sought(mode: Mode, behind: usize) -> usize
    ensures { result ≡ first_sought mode behind }
{
    match mode {
        Mode::Crate => 0,
        Mode::Brace => behind,
    }
}

// From the last three words of an error as the walk leaves them: its span and 0; or where a `}` starts, its record, and one more than the record
// behind its `{`: then the last comma between these is to blame, or if there is none the place before the `}`.
fn place_of(
    s: &[u8],
    mode: Mode,
    p: LinePoint,
    known: Comma,
    start: u32,
    end: u32,
    mark: u32,
) -> Placed
    requires counted { Counted s.now p.cur.base p }
    requires known { Known s.now p.cur.base known }
    requires few_records { count s.now ≤ max_records }
    ensures { Places s.now p.cur.base mode start end mark result }
{
    if mark == 0 {
        let q = line_from(s, p, start);
        return Placed {
            start,
            end,
            line: q.line,
            point: q,
            comma: known,
        };
    }
    let first = first_sought(mode, (mark - 1) as usize);
    let q = point_from(s, p, end as usize);
    let comma = comma_from(s, known, q);
    if first < comma.behind {
        return Placed {
            start: comma.start,
            end: comma.end,
            line: comma.line,
            point: q,
            comma,
        };
    }
    let r = line_from(s, q, start);
    Placed {
        start,
        end: start,
        line: r.line,
        point: r,
        comma,
    }
}

// The n errors of a walk: as many as are in the buffer.
pub fn number_errors(s: &[u8], base: u32, mode: Mode, n: usize, errors: &mut [u32])
    requires text_ends { start_at s.now base (count s.now) ≤ max_end }
    requires laid { Laid base (all_tokens s.now base) }
    requires few_records { count s.now ≤ max_records }
    ensures { errors.new ≡ numbered mode (all_tokens s.now base) n errors.old }
{
    let stored = n.min(errors.len() / ERROR_WORDS);
    let mut point = first_line(base);
    let mut comma = no_comma();
    for i in 0..stored {
        let b = i * ERROR_WORDS;
        let start = errors[b + 4];
        let end = errors[b + 5];
        let mark = errors[b + 6];
        let u = place_of(s, mode, point, comma, start, end, mark);
        errors[b + 4] = u.start;
        errors[b + 5] = u.end;
        errors[b + 6] = u.line;
        point = u.point;
        comma = u.comma;
    }
}
