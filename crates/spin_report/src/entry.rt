//! Entries of a history: what was asked, by which lane and line, and what it answered.

ghost use Rattle.std.specs.Prelude.{◌≡◌};
ghost use Rattle.spin_report.specs.Segments as segments;

use spin_proto::Reply;
use spin_table::Verdicted;
use spin_values::Sequence;
use spin_word::{Command, Deed};

/// What was asked, and its answer.
#[derive(PartialEq, Drop, Debug)]
pub enum What {
    /// A command, and what became of it.
    Command(Command, Verdicted),
    /// A deed, and what it came to.
    Deed(Deed, Reply),
}

/// One entry of a history.
#[derive(PartialEq, Drop, Debug)]
pub struct Entry {
    /// The place: how many commands were accepted up to here, this one included.
    pub place: u16,
    /// The lane that asked, counted from 0.
    pub lane: u8,
    /// The line of the script, counted from 1.
    pub line: u32,
    /// Which part of a line of packets it is, counted from 1; 0 for every other line.
    pub part: u32,
    /// What was asked, and its answer.
    pub what: What,
}

/// Where an entry stands among those of its segment: by place, at one place the accepted command first, and then by
/// lane, line and part.
pub type EntryKey = (u16, bool, u8, u32, u32);

impl Entry {
    /// Where it stands among the entries of its segment.
    pub fn moment(&self) -> EntryKey
        ensures { result ≡ segments.moment self.now }
    {
        let is_accepted = matches!(&self.what, What::Command(_, Verdicted::Accepted));
        (self.place, !is_accepted, self.lane, self.line, self.part)
    }
}

/// Entries in the order of the history.
pub type Entries = Sequence<Entry>;
