// What is asked of records when a list is checked: each by itself, and a stretch of them.
#![tactic(auto)]

ghost use Rattle.std.specs.Prelude.{◌≡◌, ◌+◌, ◌<◌, ◌≤◌};
ghost use Rattle.std.specs.Option.{is_none};
ghost use Rattle.token.specs.Limits.{max_records};
ghost use Rattle.token.specs.Records.{count};
ghost use Rattle.token.specs.Check.{record_refusal};
ghost use Rattle.record_checks.specs.Stretches.{fits_at, all_fit, lengths_of, Narrow};

use token::checked::MAX_END;
use token::record::{kind_number_at, length_at};
use token::refusal::Refusal;

// Whether a record is not refused for its kind's number or its length. As a `match` over ranges, or by `&&`, the check of a list would take 13
// instructions a token in place of 10.
pub fn record_fits(kind: u32, length: u32) -> bool
    ensures { result ≡ is_none (record_refusal kind length 0) }
{
    if kind < 8 {
        if 0 < kind {
            return length == 1;
        }
        return false;
    }
    if kind < 16 {
        return 1 <= length;
    }
    if kind < 17 {
        return length == 0;
    }
    false
}

// The refusal of a record by its kind's number, its length and where it ends, if any.
pub fn record_refusal(kind: u32, length: u32, end: usize) -> Option<Refusal>
    ensures { result ≡ record_refusal kind length end }
{
    if kind < 1 || 16 < kind {
        Some(Refusal::Kind)
    } else if !record_fits(kind, length) {
        Some(Refusal::Length)
    } else if MAX_END < end {
        Some(Refusal::Bytes)
    } else {
        None
    }
}

pub fn fits_at(s: &[u8], i: usize) -> bool
    requires { i < count s.now }
    ensures { result ≡ fits_at s.now i }
{
    record_fits(kind_number_at(s, i), length_at(s, i))
}

// Whether the k records from record i on fit.
pub fn all_fit(s: &[u8], i: usize, k: usize) -> bool
    requires { i + k ≤ count s.now }
    ensures { result ≡ all_fit k s.now i }
{
    for nth in 0..k {
        if !fits_at(s, i + nth) {
            return false;
        }
    }
    true
}

// The sum of their lengths, and that each of these is a number of four bytes.
pub fn lengths_of(s: &[u8], i: usize, k: usize) -> usize
    requires k_bound { i + k ≤ count s.now }
    requires s_bound { count s.now ≤ max_records }
    ensures { (result ≡ lengths_of k s.now i) × Narrow k s.now i }
{
    let mut lengths = 0;
    for nth in 0..k {
        lengths += length_at(s, i + nth) as usize;
    }
    lengths
}
