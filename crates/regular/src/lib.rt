// Whether a list of token records is as the grammar supposes: one Eof, at the end, and no two Whitespace in a row.
#![tactic(auto)]

ghost use Rattle.std.specs.Prelude.{◌≡◌, true, ◌↔◌};
ghost use Rattle.token.specs.Kinds.{kind_of};
ghost use Rattle.token.specs.Tokens.{all_tokens};
ghost use Rattle.fitting.specs.Premises.{Regular};
ghost use Rattle.regular.specs.Regular.{is_whitespace, is_eof};

use token::record::kind_number_at;

// By the number of a kind. One that names no kind is read as Eof.
fn is_whitespace(number: u32) -> bool
    ensures { result ≡ is_whitespace (kind_of number) }
{
    number == 8
}

#[tactic(auto, using(crate::proofs::NumberLaws::eof_number), unfolding(token::specs::Kinds::kind_of))]
fn is_eof(number: u32) -> bool
    ensures { result ≡ is_eof (kind_of number) }
{
    number < 1 || 15 < number
}

pub fn is_regular(records: &[u8], base: u32) -> bool
    ensures { (result ≡ true) ↔ Regular (all_tokens records.now base) }
{
    let n = records.len() / 6;
    let mut behind = false;
    for i in 0..n {
        let number = kind_number_at(records, i);
        if is_eof(number) {
            return i + 1 == n;
        }
        let whitespace = is_whitespace(number);
        if behind && whitespace {
            return false;
        }
        behind = whitespace;
    }
    false
}
