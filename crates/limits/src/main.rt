// The program of the limits: runs the document entry on lists at a limit and just beyond it, and prints for each what came: the
// answer, and the last event that the buffer holds. oracle/src/bin/limits.rs says the same by the oracle.
#![tactic(auto)]

mod showing;

ghost use Rattle.std.specs.Prelude.{◌≤◌};

use crate::showing::{AMPLE, show};
use limit_lists::lists::{fill, put};
use std::io;
use token::kind::Kind;

// A key, an equals sign, and so many arrays within one another.
fn nested_arrays(rt: &impl Print, depth: usize) -> io::Result<()>
    requires { depth ≤ 65 }
{
    print!(rt; "{depth} nested arrays")?;
    let mut list = [0u8; 798];
    let end = 2 + depth + depth;
    put(&mut list, 0, Kind::Atom as u8);
    put(&mut list, 1, Kind::Equals as u8);
    fill(&mut list, 2..2 + depth, Kind::LeftSquareBracket as u8);
    fill(&mut list, 2 + depth..end, Kind::RightSquareBracket as u8);
    put(&mut list, end, Kind::Eof as u8);
    show(rt, &list[..6 * (end + 1)], 0, AMPLE)
}

// A key, an equals sign, and Atoms, which are one scalar, up to so many records.
fn many_records(rt: &impl Print, count: usize) -> io::Result<()>
    requires { count ≤ 65537 }
{
    print!(rt; "{count} records")?;
    let mut list = [0u8; 393222];
    fill(&mut list, 0..count, Kind::Atom as u8);
    put(&mut list, 1, Kind::Equals as u8);
    show(rt, &list[..6 * count], 0, AMPLE)
}

// A pair, which has three events, in a buffer of so many words.
fn pair_in(rt: &impl Print, room: usize) -> io::Result<()>
    requires { room ≤ 1024 }
{
    print!(rt; "three events in {room} words")?;
    let mut list = [0u8; 24];
    fill(&mut list, 0..3, Kind::Atom as u8);
    put(&mut list, 1, Kind::Equals as u8);
    put(&mut list, 3, Kind::Eof as u8);
    show(rt, &list, 0, room)
}

// One record where the highest place is the base.
fn at_the_top(rt: &impl Print, kind: u8) -> io::Result<()> {
    print!(rt; "base 16777216 and one record of kind {kind}")?;
    let mut list = [0u8; 6];
    put(&mut list, 0, kind);
    show(rt, &list, 16777216, AMPLE)
}

fn main(rt: HostRuntime) -> io::Result<()> {
    nested_arrays(&rt, 64)?;
    nested_arrays(&rt, 65)?;
    many_records(&rt, 65536)?;
    many_records(&rt, 65537)?;
    pair_in(&rt, 12)?;
    pair_in(&rt, 8)?;
    at_the_top(&rt, Kind::Eof as u8)?;
    at_the_top(&rt, Kind::Atom as u8)
}
