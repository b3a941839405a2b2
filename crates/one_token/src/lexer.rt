// One token: process_token of lexer/mod.rs.
ghost use Rattle.std.specs.Prelude.{◌≡◌, ◌<◌, length};
ghost use Rattle.scan.specs.Finding.{IsToken};

use crate::start::start_of;
use scan::lexer::Found;
use scan::sets::{lex_atom, lex_comment, lex_crlf, lex_whitespace};
use scan::start::Start;
use strings::basic::{lex_basic_string, lex_ml_basic_string};
use strings::literal::{lex_literal_string, lex_ml_literal_string};
use strings::quotes::starts_three;
use token::kind::Kind;

fn piece(kind: Kind, end: usize) -> Found
    ensures { result ≡ record { end = end; kind = kind } }
{
    Found { end, kind }
}

#[tactic(auto, using(scan::specs::ScanLaws::three_within, scan::specs::TokenLaws::ml_literal_is, scan::specs::TokenLaws::ml_basic_is))]
pub fn process_token(text: &[u8], at: usize) -> Found
    requires { at < length text.now }
    ensures { IsToken text.now at result }
{
    let start = start_of(text[at]);
    let end = at + 1;
    match start {
        Start::Dot => piece(Kind::Dot, end),
        Start::Equals => piece(Kind::Equals, end),
        Start::Comma => piece(Kind::Comma, end),
        Start::LeftSquareBracket => piece(Kind::LeftSquareBracket, end),
        Start::RightSquareBracket => piece(Kind::RightSquareBracket, end),
        Start::LeftCurlyBracket => piece(Kind::LeftCurlyBracket, end),
        Start::RightCurlyBracket => piece(Kind::RightCurlyBracket, end),
        Start::Wschar => piece(Kind::Whitespace, lex_whitespace(text, end)),
        Start::CommentStartSymbol => piece(Kind::Comment, lex_comment(text, end)),
        Start::CarriageReturn => piece(Kind::Newline, lex_crlf(text, end)),
        Start::LineFeed => piece(Kind::Newline, end),
        Start::Apostrophe => {
            if starts_three(text, at, b'\'') {
                return piece(Kind::MlLiteralString, lex_ml_literal_string(text, at + 3));
            }
            piece(Kind::LiteralString, lex_literal_string(text, end))
        }
        Start::QuotationMark => {
            if starts_three(text, at, b'"') {
                return piece(Kind::MlBasicString, lex_ml_basic_string(text, at + 3));
            }
            piece(Kind::BasicString, lex_basic_string(text, end))
        }
        Start::Other => piece(Kind::Atom, lex_atom(text, end)),
    }
}
