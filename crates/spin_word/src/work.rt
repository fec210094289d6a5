//! What a lane asks for: a command, a raise, or raises with packets.

ghost use Rattle.std.specs.Prelude.{◌≡◌, IfOk};

use crate::command::Command;
use spin_values::{Args, NoMemory};

/// What is asked of a version.
#[derive(PartialEq, Drop, Debug)]
pub enum Deed {
    /// To raise an event now.
    Raise {
        /// The number of the event.
        event: u8,
        /// Its arguments.
        args: Args,
    },
    /// To leave the raise of an event to a job.
    Later {
        /// The number of the event.
        event: u8,
        /// Its arguments.
        args: Args,
    },
}

impl Deed {
    /// An equal deed.
    pub fn copy(&self) -> Result<Deed, NoMemory>
        ensures { IfOk result (λ copy. copy ≡ self.now) }
    {
        match self {
            Deed::Raise { event, args } => Ok(Deed::Raise {
                event: *event,
                args: args.copy()?,
            }),
            Deed::Later { event, args } => Ok(Deed::Later {
                event: *event,
                args: args.copy()?,
            }),
        }
    }
}

/// What a lane line asks for.
#[derive(PartialEq, Drop, Debug)]
pub enum Work {
    /// A change of an event's bindings.
    Command(Command),
    /// A raise, now or as a job.
    Deed(Deed),
    /// A raise with each of the next records of the capture.
    Packet {
        /// The number of the event.
        event: u8,
        /// At most how many records, from 1 to 65,536.
        count: u32,
    },
}
