// The records of a text's tokens. What a token is goes by the code of its first byte, and each case writes its own record: most
// tokens are a byte that is one by itself, a space, or an atom.
#![tactic(auto)]

ghost use Rattle.std.specs.Prelude.{◌≡◌, ◌++◌, ◌+◌, ◌*◌, ◌<◌, ◌≤◌, length, drop};
ghost use Rattle.token.specs.Writing.{records_of};
ghost use Rattle.scan.specs.Lexer.{tokens_from};
ghost use Rattle.token_records.specs.Put.{Put};

use byte_codes::codes::{LAST_ALONE, OTHER};
use byte_codes::table::Codes;
use scan::sets::{lex_comment, lex_crlf};
use token::kind::{Kind, number_of};
use token_records::{put, put_any, put_basic, put_literal, put_whitespace};

// Any, by the code of its first byte: whitespace that starts with a tab is left to put_any.
#[tactic(auto, using(token_records::specs::PutLaws::put_is, token_records::specs::PutLaws::put_alone, scan::specs::CodeLaws::other_code, scan::specs::CodeLaws::number_sign_start, scan::specs::CodeLaws::carriage_return_start))]
fn put_token(text: &[u8], codes: &Codes, at: usize, records: &mut [u8], out: usize) -> usize
    requires at_in_bounds { at < length text.now }
    requires out_in_bounds { out + 6 ≤ length records.old }
    ensures { Put text.now at records.old out records.new result }
{
    let b = text[at];
    let code = codes.code_of(b);
    if code <= LAST_ALONE {
        put(records, out, 1, code as usize);
        return at + 1;
    }
    match b {
        b' ' => put_whitespace(text, codes, at, records, out),
        _ if code == OTHER => {
            let end = codes.lex_atom(text, at + 1);
            put(records, out, end - at, number_of(Kind::Atom));
            end
        }
        b'"' => put_basic(text, at, records, out),
        b'\'' => put_literal(text, at, records, out),
        b'#' => {
            let end = lex_comment(text, at + 1);
            put(records, out, end - at, number_of(Kind::Comment));
            end
        }
        b'\r' => {
            let end = lex_crlf(text, at + 1);
            put(records, out, end - at, number_of(Kind::Newline));
            end
        }
        _ => put_any(text, at, records, out),
    }
}

// The tokens from `base` on: their records are written, and counted. A turn goes on to the end of its token.
pub fn write(text: &[u8], base: usize, records: &mut [u8]) -> usize
    requires base_in_bounds { base ≤ length text.now }
    requires base_in_bounds_2 { 6 * length (tokens_from text.now base) ≤ length records.old }
    ensures { (result ≡ length (tokens_from text.now base)) × (records.new ≡ records_of (tokens_from text.now base) ++ drop (6 * length (tokens_from text.now base)) records.old) }
{
    let codes = Codes::new();
    let mut at = base;
    let mut out = 0;
    while at < text.len() {
        at = put_token(text, &codes, at, records, out);
        out += 6;
    }
    put(records, out, 0, number_of(Kind::Eof));
    out / 6 + 1
}
