// The listing: piece by piece, with the error records that go before each.
ghost use Rattle.std.specs.Prelude.{◌≡◌, ◌/◌, ◌<◌, ◌≤◌, length};
ghost use Rattle.token.specs.Limits.{max_records, max_end};
ghost use Rattle.token.specs.Records.{count, start_at};
ghost use Rattle.token.specs.Tokens.{all_tokens};
ghost use Rattle.token.specs.Laid.{Laid};
ghost use Rattle.rules.specs.Answer.{event_size, error_size, filled};
ghost use Rattle.line_points.specs.Points.{Counted};
ghost use Rattle.mistake_rules.specs.Mistakes.{mistakes_in, all_words};
ghost use Rattle.mistake_rules.specs.Sheets.{Sheet};
ghost use Rattle.mistake_steps.specs.Steps.{countless};
ghost use Rattle.mistakes.specs.Notes.{Notes};

use line_points::points::{LinePoint, first_line, line_from};
use mistake_steps::putting::{put_mistake, put_records};
use mistake_steps::records::{is_accounted, passed_by};
use pieces::messages::expected_by;
use pieces::pieces::{Piece, next_piece};
use rules::answer::ERROR_WORDS;

// How many mistakes there are so far, and the point up to which lines are counted.
#[derive(Clone, Copy)]
pub struct Noted {
    pub point: LinePoint,
    pub count: usize,
}

// The piece as mistake k, unless record r accounts for it.
fn note_piece(
    s: &[u8],
    point: LinePoint,
    errors: &[u32],
    r: usize,
    p: Piece,
    k: usize,
    mistakes: &mut [u32],
) -> Noted
    requires counted { Counted s.now point.cur.base point }
    requires s_bound { count s.now ≤ max_records }
    requires k_lt_countless { k < countless }
    ensures { Notes s.now point.cur.base (length errors.now / error_size) errors.now r p k mistakes.old mistakes.new result }
{
    if is_accounted(errors, r, p) {
        return Noted { point, count: k };
    }
    let at = line_from(s, point, p.start);
    let expected = expected_by(p.message);
    put_mistake(
        mistakes,
        k,
        [p.message, expected, p.start, p.end, p.start, p.end, at.line],
    );
    Noted {
        point: at,
        count: k + 1,
    }
}

// The mistakes of the events and the error records, over a list that is known to pass the check. How many there are is answered. Words behind the
// last whole event or record do not count.
pub fn list_mistakes(
    s: &[u8],
    base: u32,
    events: &[u32],
    errors: &[u32],
    mistakes: &mut [u32],
) -> usize
    requires s_bound { (start_at s.now base (count s.now) ≤ max_end) × Laid base (all_tokens s.now base) }
    requires s_bound_2 { count s.now ≤ max_records }
    ensures { ◌≡◌ {A = Sheet} (record { count = result; buffer = mistakes.new }) (record {
      count = length (mistakes_in (length events.now / event_size) events.now (length errors.now / error_size) errors.now);
      buffer = filled error_size (all_words (all_tokens s.now base) (mistakes_in (length events.now / event_size) events.now (length errors.now / error_size) errors.now)) mistakes.old;
    }) }
{
    let mut point = first_line(base);
    let mut i = 0;
    let mut r = 0;
    let mut k = 0;
    while let Some((p, next)) = next_piece(events, i) {
        let j = passed_by(errors, r, p);
        put_records(mistakes, k, errors, r, j);
        let noted = note_piece(s, point, errors, j, p, k + (j - r), mistakes);
        point = noted.point;
        k = noted.count;
        r = j;
        i = next;
    }
    let m = errors.len() / ERROR_WORDS;
    put_records(mistakes, k, errors, r, m);
    k + (m - r)
}
