//! Why a row has no answer.

use spin_script::ScriptFault;
use spin_values::NoMemory;
use std::alloc::{AllocError, AllocFailed};
use std::fmt;

/// Why a row has no answer of its own.
#[derive(Clone, Copy, Debug, PartialEq, Eq)]
pub(crate) enum Fault {
    /// The row can't be read.
    BadRow,
    /// There was no memory.
    NoMemory,
    /// A call gave what it never should, which is told by these words.
    Wrong(&'static str),
}

impl Fault {
    /// What is told of it.
    pub(crate) fn told(self) -> &'static str {
        match self {
            Fault::BadRow => "bad row",
            Fault::NoMemory => "no memory",
            Fault::Wrong(words) => words,
        }
    }
}

impl From<NoMemory> for Fault {
    fn from(_: NoMemory) -> Fault {
        Fault::NoMemory
    }
}

impl From<AllocError> for Fault {
    fn from(_: AllocError) -> Fault {
        Fault::NoMemory
    }
}

impl<T: Drop> From<AllocFailed<T>> for Fault {
    fn from(_: AllocFailed<T>) -> Fault {
        Fault::NoMemory
    }
}

// Answers are written to memory alone.
impl From<fmt::Error> for Fault {
    fn from(_: fmt::Error) -> Fault {
        Fault::NoMemory
    }
}

impl From<ScriptFault> for Fault {
    fn from(_: ScriptFault) -> Fault {
        Fault::Wrong("a script is refused")
    }
}
