// Inline tables: what is to be done in each state at each kind of token.
#![tactic(auto)]

ghost use Rattle.std.specs.Prelude.{◌≡◌};
ghost use Rattle.rules.specs.InlineTable.{action_of, wanted, encoding_at};
ghost use Rattle.inline_actions.specs.Actions.{row_of, action_from, action_table};

use classes::keys::in_key;
use output::expected::{A_KEY, A_VALUE, COMMA, EQUALS};
use rules::event::Encoding;
use rules::inline_table::{Action, State};
use rules::keys::InKey;
use token::kind::{Kind, number_of};

// The number of the action of each state (row) at each kind of token (column). Numbers, since an inline table is asked to go by such an array.
const ACTIONS: [[u8; 16]; 4] = [
    [21, 6, 5, 9, 18, 10, 17, 0, 1, 2, 20, 20, 20, 20, 20, 3],
    [13, 7, 5, 11, 18, 12, 17, 0, 1, 2, 13, 13, 13, 13, 13, 3],
    [16, 8, 5, 14, 19, 15, 17, 0, 1, 2, 16, 16, 16, 16, 16, 3],
    [23, 8, 4, 9, 18, 10, 17, 0, 1, 2, 22, 22, 22, 22, 22, 3],
];

// The table for the turns of an inline table: a constant array is built anew wherever it is named, so a walk asks for it once and lends it.
#[tactic(auto, unfolding(crate::specs::Actions::action_table))]
pub fn action_table() -> [[u8; 16]; 4]
    ensures { result ≡ action_table }
{
    ACTIONS
}

fn row_of(state: State) -> usize
    ensures { result ≡ row_of state }
{
    state as usize
}

pub fn wanted_in(state: State) -> u32
    ensures { result ≡ wanted state }
{
    match state {
        State::NeedsKey => A_KEY,
        State::NeedsEquals => EQUALS,
        State::NeedsValue => A_VALUE,
        State::NeedsComma => COMMA,
    }
}

// The encoding of a token that is a key.
pub fn encoding_at(kind: Kind) -> Encoding
    ensures { result ≡ encoding_at kind }
{
    match in_key(kind) {
        InKey::Part(e) => e,
        _ => Encoding::None,
    }
}

// The action of a number of the table. A match, since a constant array is built anew wherever it is named.
#[tactic(auto, unfolding(crate::specs::Actions::action_from))]
fn action_from(number: u8) -> Action
    ensures { result ≡ action_from number }
{
    match number {
        0 => Action::Whitespace,
        1 => Action::Comment,
        2 => Action::Newline,
        3 => Action::Eof,
        4 => Action::ValueSep,
        5 => Action::ExtraComma,
        6 => Action::EmptyKey,
        7 => Action::KeyValSep,
        8 => Action::ExtraAssignment,
        9 => Action::KeylessArray,
        10 => Action::KeylessTable,
        11 => Action::UnassignedArray,
        12 => Action::UnassignedTable,
        13 => Action::UnassignedScalar,
        14 => Action::Array,
        15 => Action::Table,
        16 => Action::Scalar,
        17 => Action::Close,
        18 => Action::InvalidElement,
        19 => Action::ArrayWithoutOpen,
        20 => Action::Key,
        21 => Action::DotKey,
        22 => Action::KeyWithoutComma,
        _ => Action::DotKeyWithoutComma,
    }
}

// The action of a state at a kind of token. The table is lent, since a constant is built anew wherever it is named.
#[tactic(auto, using(crate::proofs::ActionLaws::table_right))]
pub fn action_at(actions: &[[u8; 16]; 4], state: State, kind: Kind) -> Action
    requires { actions.now ≡ action_table }
    ensures { result ≡ action_of state kind }
{
    action_from(actions[row_of(state)][number_of(kind) - 1])
}
