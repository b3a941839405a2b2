// The replay program: replays the lists in the file vectors.bin on the four entries, and holds what comes to what the oracle answered:
// the answer, the words that were written, and those that must stay untouched. Prints a line for each class of lists, with how many
// there are and how many differ, and one for all. oracle/src/frame.rs says what the file has in it; oracle/expected makes it.
#![tactic(auto)]

mod replay;

use crate::replay::replay;
use std::fs::File;
use std::io;
use std::io::Read;
use vector_files::frames::{Frame, read_frame};
use vector_files::tally::{Failure, Tally};

// A loop that is proved has to end, and nothing says that a file does: it has at most so many frames.
const MOST_FRAMES: u32 = 1000000;

fn replay_file(rt: &impl Print, file: &mut impl Read, tally: &mut Tally) -> Result<(), Failure> {
    for _ in 0..MOST_FRAMES {
        match read_frame(file)? {
            Frame::End(sent) => return tally.finish(rt, sent),
            Frame::Case(case) => tally.count(replay(file, case)?),
            Frame::Note(length) => tally.begin_class(rt, file, length)?,
        }
    }
    Err(Failure::Broken)
}

fn main(rt: HostRuntime) -> io::Result<()> {
    let Ok(mut file) = File::open(&rt, "vectors.bin") else {
        return println!(rt; "vectors.bin cannot be opened");
    };
    let mut tally = Tally::default();
    match replay_file(&rt, &mut file, &mut tally) {
        Ok(()) => Ok(()),
        Err(Failure::Broken) => {
            println!(rt; "\nvectors.bin is broken after list {}", tally.all.lists)
        }
        Err(Failure::Output(error)) => Err(error),
    }
}
