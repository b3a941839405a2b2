// The token layer: token records of six bytes, as docs/LAYOUT.md has them, and a cursor over them that is passed by value.
#![tactic(auto)]

pub mod checked;
pub mod cursor;
pub mod kind;
pub mod record;
pub mod refusal;
pub mod span;
