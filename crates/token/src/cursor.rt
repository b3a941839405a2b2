// A place in a list of token records, passed by value: what the Rust has as TokenSlice. Each call hands the next cursor back.
ghost use Rattle.std.specs.Prelude.{◌<◌};
ghost use Rattle.token.specs.Tokens.{Good, At, Next, NextIf, Peek, Back};

use crate::kind::Kind;
use crate::record::{kind_at, length_at};

#[derive(Clone, Copy)]
pub struct Token {
    pub kind: Kind,
    pub start: u32,
    pub end: u32,
}

// The index of the next record, where that record's text starts, and where the whole text starts.
#[derive(Clone, Copy)]
pub struct Cursor {
    pub at: usize,
    pub place: u32,
    pub base: u32,
}

// What a search backward looks for: a token that is no Whitespace, Comment, Newline or Eof; a Comma; one that is no Whitespace.
#[derive(Clone, Copy)]
pub enum Sought {
    Significant,
    Comma,
    Solid,
}

impl Cursor {
    // Before the first record of a text that starts at `base`.
    pub fn new(base: u32) -> Cursor
        ensures { At result base 0 base }
    {
        Cursor {
            at: 0,
            place: base,
            base,
        }
    }

    // The next token, and the cursor past it; none at the end of the list.
    pub fn next(self, s: &[u8]) -> Option<(Token, Cursor)>
        requires { Good s.now self }
        ensures { Next s.now self result }
    {
        let at = self.at;
        if at < s.len() / 6 {
            let end = self.place + length_at(s, at);
            Some((
                Token {
                    kind: kind_at(s, at),
                    start: self.place,
                    end,
                },
                Cursor {
                    at: at + 1,
                    place: end,
                    base: self.base,
                },
            ))
        } else {
            None
        }
    }

    // The next token, which is not taken.
    pub fn peek(self, s: &[u8]) -> Option<Token>
        requires { Good s.now self }
        ensures { Peek s.now self result }
    {
        let Some((t, _)) = self.next(s) else {
            return None;
        };
        Some(t)
    }

    // The next token if it is of the kind.
    pub fn next_token_if(self, s: &[u8], kind: Kind) -> Option<(Token, Cursor)>
        requires { Good s.now self }
        ensures { NextIf s.now self kind result }
    {
        let Some((t, past)) = self.next(s) else {
            return None;
        };
        if t.kind == kind {
            Some((t, past))
        } else {
            None
        }
    }

    // One record back: the Rust's seek by -1.
    pub fn back(self, s: &[u8]) -> Cursor
        requires good { Good s.now self }
        requires at_nonzero { 0 < self.at }
        ensures { Back s.now self result }
    {
        let at = self.at - 1;
        Cursor {
            at,
            place: self.place - length_at(s, at),
            base: self.base,
        }
    }
}
