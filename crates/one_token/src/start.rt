// What a token starts with.
ghost use Rattle.std.specs.Prelude.{◌≡◌};
ghost use Rattle.scan.specs.Lexer.{start_of};

use scan::start::Start;

#[tactic(auto, unfolding(scan::specs::Lexer::start_of))]
pub fn start_of(b: u8) -> Start
    ensures { result ≡ start_of b }
{
    match b {
        b'.' => Start::Dot,
        b'=' => Start::Equals,
        b',' => Start::Comma,
        b'[' => Start::LeftSquareBracket,
        b']' => Start::RightSquareBracket,
        b'{' => Start::LeftCurlyBracket,
        b'}' => Start::RightCurlyBracket,
        b' ' | b'\t' => Start::Wschar,
        b'#' => Start::CommentStartSymbol,
        b'\r' => Start::CarriageReturn,
        b'\n' => Start::LineFeed,
        b'\'' => Start::Apostrophe,
        b'"' => Start::QuotationMark,
        _ => Start::Other,
    }
}
