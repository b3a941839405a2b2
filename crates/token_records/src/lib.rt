// The record of a token, by what the token starts with.
#![tactic(auto)]

ghost use Rattle.std.specs.Prelude.{◌≡◌, ℕ, ◌+◌, ◌*◌, ◌<◌, ◌≤◌, length, get_or};
ghost use Rattle.token.specs.Writing.{put_at};
ghost use Rattle.scan.specs.Bytes.{space, quotation_mark, apostrophe};
ghost use Rattle.token_records.specs.Put.{Put};

use byte_codes::table::Codes;
use one_token::lexer::process_token;
use scan::lexer::Found;
use scan::sets::lex_whitespace;
use strings::basic::lex_basic_string;
use strings::literal::lex_literal_string;
use strings::quotes::starts_three;
use token::kind::{Kind, number_of};

// put_record at the record's first byte: its number is not needed.
pub fn put(records: &mut [u8], out: usize, size: usize, kind: usize)
    requires { out + 6 ≤ length records.old }
    ensures { (n : ℕ) → out ≡ 6 * n → records.new ≡ put_at records.old n size kind }
{
    records[out] = (size % 256) as u8;
    records[out + 1] = (size / 256 % 256) as u8;
    records[out + 2] = (size / 65536 % 256) as u8;
    records[out + 3] = (size / 16777216 % 256) as u8;
    records[out + 4] = (kind % 256) as u8;
    records[out + 5] = (kind / 256 % 256) as u8;
}

// The record of the token at `at`, whatever it is, is written. The answer is where the token ends, here and in the functions below.
pub fn put_any(text: &[u8], at: usize, records: &mut [u8], out: usize) -> usize
    requires at_in_bounds { at < length text.now }
    requires out_in_bounds { out + 6 ≤ length records.old }
    ensures { Put text.now at records.old out records.new result }
{
    let Found { end, kind } = process_token(text, at);
    put(records, out, end - at, number_of(kind));
    end
}

// One that starts with a quotation mark. This and the next stay two: one function would take the quote, the kind, the class and the way to the
// end, and say all four in its contract.
#[tactic(auto, using(crate::specs::PutLaws::put_is, scan::specs::CodeLaws::quotation_mark_start, scan::specs::TokenLaws::basic_is))]
pub fn put_basic(text: &[u8], at: usize, records: &mut [u8], out: usize) -> usize
    requires at_in_bounds { at < length text.now }
    requires out_in_bounds { out + 6 ≤ length records.old }
    requires at_value { get_or text.now at 0 ≡ quotation_mark }
    ensures { Put text.now at records.old out records.new result }
{
    if starts_three(text, at, b'"') {
        return put_any(text, at, records, out);
    }
    let end = lex_basic_string(text, at + 1);
    put(records, out, end - at, number_of(Kind::BasicString));
    end
}

// One that starts with an apostrophe.
#[tactic(auto, using(crate::specs::PutLaws::put_is, scan::specs::CodeLaws::apostrophe_start, scan::specs::TokenLaws::literal_is))]
pub fn put_literal(text: &[u8], at: usize, records: &mut [u8], out: usize) -> usize
    requires at_in_bounds { at < length text.now }
    requires out_in_bounds { out + 6 ≤ length records.old }
    requires at_value { get_or text.now at 0 ≡ apostrophe }
    ensures { Put text.now at records.old out records.new result }
{
    if starts_three(text, at, b'\'') {
        return put_any(text, at, records, out);
    }
    let end = lex_literal_string(text, at + 1);
    put(records, out, end - at, number_of(Kind::LiteralString));
    end
}

// One that starts with a space.
#[tactic(auto, using(crate::specs::PutLaws::put_is, scan::specs::CodeLaws::space_start))]
pub fn put_whitespace(
    text: &[u8],
    codes: &Codes,
    at: usize,
    records: &mut [u8],
    out: usize,
) -> usize
    requires at_in_bounds { at < length text.now }
    requires out_in_bounds { out + 6 ≤ length records.old }
    requires at_value { get_or text.now at 0 ≡ space }
    ensures { Put text.now at records.old out records.new result }
{
    if codes.whitespace_ends(text, at + 1) {
        put(records, out, 1, number_of(Kind::Whitespace));
        return at + 1;
    }
    let end = lex_whitespace(text, at + 1);
    put(records, out, end - at, number_of(Kind::Whitespace));
    end
}
