//! What the lines of a trace say.

use spin_values::Sequence;

/// Pages of a space, one after another, and what may be done there.
#[derive(Clone, Copy, PartialEq, Eq, Drop, Debug)]
pub struct Region {
    /// The first page.
    pub start: u64,
    /// The number of pages.
    pub pages: u64,
    /// Whether they may be written to; all may be read.
    pub writable: bool,
}

/// What is asked of one space.
#[derive(Clone, Copy, PartialEq, Eq, Drop, Debug)]
pub enum Request {
    /// To have this region.
    Region(Region),
    /// To take a page out of the map.
    Unmap(u64),
    /// An access.
    Access {
        /// The address.
        address: u64,
        /// Whether it writes.
        write: bool,
    },
}

/// What a line says.
#[derive(Clone, Copy, PartialEq, Eq, Drop, Debug)]
pub enum Statement {
    /// There is a space of this number.
    Space(u64),
    /// Something is asked of a space.
    At {
        /// The number of the space.
        space: u64,
        /// What is asked.
        request: Request,
    },
}

/// A line of a trace.
#[derive(Clone, Copy, PartialEq, Eq, Drop, Debug)]
pub struct TraceLine {
    /// Its number in the text, counted from 1.
    pub number: u32,
    /// What it says.
    pub said: Statement,
}

/// The lines of a trace behind the first, but for those that are skipped, in the order of the text.
pub type Trace = Sequence<TraceLine>;
