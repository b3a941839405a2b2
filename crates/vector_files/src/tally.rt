// What was counted so far, and the lines that say so.
ghost use Rattle.std.specs.Prelude.{◌≡◌, OnErr, OnOk, Some, option_map};
ghost use Rattle.vector_files.specs.Counting.{counted};

use crate::frames::{Broken, read_bytes};
use std::io::Read;
use std::{fmt, io};

// Why a replay stops before its end.
#[derive(Debug, Drop)]
pub enum Failure {
    // The file is not as it must be.
    Broken,
    // What the replay prints cannot be written.
    Output(io::Error),
}

impl From<Broken> for Failure {
    fn from(_broken: Broken) -> Self {
        Failure::Broken
    }
}

impl From<io::Error> for Failure {
    fn from(error: io::Error) -> Self {
        Failure::Output(error)
    }
}

// How many lists there are, and how many of them differ.
#[derive(Clone, Copy, Default)]
pub struct Counts {
    pub lists: u64,
    differ: u64,
}

impl Counts {
    // One list more, which is the same or differs. A count does not come near to where it would wrap.
    fn with(self, same: bool) -> Self
        ensures { result ≡ counted same self }
    {
        Self {
            lists: self.lists.wrapping_add(1),
            differ: self.differ.wrapping_add(u64::from(!same)),
        }
    }
}

impl fmt::Display for Counts {
    fn fmt<W: fmt::Write>(&self, f: &mut fmt::Formatter<W>) -> fmt::Result {
        write!(f, "{} comparisons, {} differ", self.lists, self.differ)
    }
}

// All lists, and those of the class that has begun, if any.
#[derive(Clone, Copy, Default)]
pub struct Tally {
    pub all: Counts,
    class: Option<Counts>,
}

impl Tally {
    // One list more, which is the same or differs.
    pub fn count(&mut self, same: bool)
        ensures all { self.new.all ≡ counted same self.old.all }
        ensures class { self.new.class ≡ option_map (counted same) self.old.class }
    {
        self.all = self.all.with(same);
        self.class = self.class.map(|counts| counts.with(same));
    }

    // The end of the class's line.
    pub fn print_class(&self, rt: &impl Print) -> io::Result<()> {
        if let Some(counts) = self.class {
            println!(rt; ": {counts}")?;
        }
        Ok(())
    }

    // Ends the line of the class before, if any, and begins one with the name that the file has next, of so many bytes.
    pub fn begin_class(
        &mut self,
        rt: &impl Print,
        file: &mut impl Read,
        length: u32,
    ) -> Result<(), Failure>
        ensures all { self.new.all ≡ self.old.all }
        ensures begun { OnOk result (self.new.class ≡ Some (record { lists = 0; differ = 0 })) }
        ensures err { OnErr result (self.new ≡ self.old) }
    {
        self.print_class(rt)?;
        let mut buffer = [0; 64];
        let name = read_bytes(file, &mut buffer, length)?;
        rt.write_all(name)?;
        self.class = Some(Counts::default());
        Ok(())
    }

    // The end: all lists came if their number is the one that stands there.
    pub fn finish(&self, rt: &impl Print, sent: u64) -> Result<(), Failure>
        ensures { OnOk result (self.now.all.lists ≡ sent) }
    {
        self.print_class(rt)?;
        if self.all.lists != sent {
            return Err(Failure::Broken);
        }
        println!(rt; "all: {}", self.all)?;
        Ok(())
    }
}
