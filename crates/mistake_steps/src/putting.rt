// Mistakes into the lent buffer. What does not fit is counted and not written.
ghost use Rattle.std.specs.Prelude.{◌≡◌, ◌+◌, ◌-◌, ◌*◌, ◌≤◌, length};
ghost use Rattle.rules.specs.Answer.{error_size};
ghost use Rattle.mistake_rules.specs.Mistakes.{error_at};
ghost use Rattle.mistake_rules.specs.Sheets.{put_at, put_all};
ghost use Rattle.mistake_steps.specs.Steps.{countless, errors_left};

use rules::answer::ERROR_WORDS;

// Mistake k: message, expected, the context from..to, the unexpected start..end, the line.
pub fn put_mistake(mistakes: &mut [u32], k: usize, words: [u32; ERROR_WORDS])
    ensures { mistakes.new ≡ put_at k words mistakes.old }
{
    if k < mistakes.len() / ERROR_WORDS {
        let b = k * ERROR_WORDS;
        mistakes[b..b + ERROR_WORDS].copy_from_slice(&words);
    }
}

// Error record i as mistake k.
fn put_record(mistakes: &mut [u32], k: usize, errors: &[u32], i: usize)
    requires { (i + 1) * error_size ≤ length errors.now }
    ensures { mistakes.new ≡ put_at k (error_at i errors.now) mistakes.old }
{
    let b = i * ERROR_WORDS;
    let words = [
        errors[b],
        errors[b + 1],
        errors[b + 2],
        errors[b + 3],
        errors[b + 4],
        errors[b + 5],
        errors[b + 6],
    ];
    put_mistake(mistakes, k, words);
}

// The error records from r up to j, from mistake k on.
pub fn put_records(mistakes: &mut [u32], k: usize, errors: &[u32], r: usize, j: usize)
    requires error_size_in_bounds { j * error_size ≤ length errors.now }
    requires r_le_j { r ≤ j }
    requires j_bound { k + j ≤ countless }
    ensures { record { count = k + (j - r); buffer = mistakes.new } ≡ put_all (errors_left j r errors.now) (record { count = k; buffer = mistakes.old }) }
{
    for i in r..j {
        put_record(mistakes, k + (i - r), errors, i);
    }
}
