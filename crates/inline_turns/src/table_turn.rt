// The answers of a turn in an inline table: where it ended, what is next, and how far the table is.
ghost use Rattle.std.specs.Prelude.{◌≡◌, false};
ghost use Rattle.rules.specs.InlineTable.{progress};
ghost use Rattle.array_parts.specs.declared.turn.Next.{Next};

use array_parts::turn::{Next, StateTurn, opening};
use output::emitting::{Counts, Walk};
use rules::inline_table::{Progress, State};
use token::cursor::Cursor;

// A turn in an inline table, and how far the table is behind it.
pub type TableTurn = StateTurn<Progress>;

// A turn that read something that counts, behind which the table is in a state: first what a bracket opens, or nothing but another turn.
pub fn opens(cur: Cursor, n: Counts, next: Next, state: State) -> TableTurn
    ensures { result ≡ record { turn = record { cur = cur; n = n; next = next }; state = progress state false } }
{
    let progress = Progress {
        state,
        empty: false,
    };
    opening(cur, n, next, progress)
}

pub fn read(cur: Cursor, n: Counts, state: State) -> TableTurn
    ensures { result ≡ record { turn = record { cur = cur; n = n; next = Next.Again }; state = progress state false } }
{
    opens(cur, n, Next::Again, state)
}

// The same, from where a walk ended.
pub fn read_walk(w: Walk, state: State) -> TableTurn
    ensures { result ≡ record { turn = record { cur = w.cur; n = w.n; next = Next.Again }; state = progress state false } }
{
    read(w.cur, w.n, state)
}
