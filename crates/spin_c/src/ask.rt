//! What is asked of a handle, and what it comes to.

use crate::step::SpinStep;
use spin_values::{Args, Octets};
use spin_word::Row;
use std::alloc::Global;

/// What is asked of a handle.
#[derive(Drop)]
pub enum Ask {
    /// To open it over this script.
    Open {
        /// The text of the script.
        text: Octets,
        /// The number of lanes.
        lanes: u8,
    },
    /// To raise an event.
    Raise {
        /// The number of the event.
        event: u8,
        /// Its arguments.
        args: Args,
    },
    /// To leave the raise of an event to a job.
    Later {
        /// The number of the event.
        event: u8,
        /// Its arguments.
        args: Args,
    },
    /// To do the job at this index of those that the reply leaves that is kept.
    Job(u64),
    /// To do the command of this row.
    Command(Row),
    /// To tell the step at this index of the reply that is kept.
    Step(u64),
    /// To hand out the bytes of the step at this index of the reply that is kept.
    Bytes(u64),
    /// To tell the step at this index of the reply to its last job that was done.
    JobStep(u64),
    /// To hand out the bytes of such a step.
    JobBytes(u64),
    /// To tell the number that a binding had before the hub was renewed, which is now this index and 1.
    Before(u64),
    /// To take in the seats of its hub that are at home.
    Gather,
    /// To tell the binding at this index of the cycle for which the last command was refused.
    Cycle(u64),
    /// To renew its hub.
    Renew,
    /// To end its hub.
    End,
    /// To tell the row at this index of the hub that was ended.
    RowAt(u64),
    /// To close it, if its seat was handed out, which goes home.
    Return,
    /// To close it.
    Close,
}

/// A call of a handle.
#[derive(Drop)]
pub struct Call {
    pub(crate) alloc: Global,
    pub(crate) ask: Ask,
}

/// What is asked of a handle at which other lanes wait: the seat of one of them.
#[derive(Drop)]
pub struct Pick {
    pub(crate) alloc: Global,
    pub(crate) number: u8,
}

/// What a raise is told as.
#[derive(Clone, Copy, PartialEq, Eq, Debug)]
pub struct Told {
    /// The number of the answer's kind: 0 no handler, 1 done, 2 a value, 3 a default with a value, 4 one without; and
    /// of why there is none: 5 no such event, 6 other arguments, 7 too many handlers, 8 queued.
    pub kind: u32,
    /// The value, where there is one, and else 0.
    pub value: u64,
    /// The number of its steps.
    pub steps: u64,
}

/// Why a command is refused, in numbers.
#[derive(Clone, Copy, PartialEq, Eq, Debug)]
pub struct Why {
    /// The number of the refusal, from 1 to 12.
    pub kind: u32,
    /// The number of the rule by which it is refused, and 0 where there is none.
    pub rule: u64,
    /// How many bindings the cycle has that it would make, and 0 where it would make none.
    pub bindings: u64,
}

/// What a call comes to.
#[derive(Drop)]
pub enum Outcome {
    /// It was done.
    Done,
    /// The handle is closed.
    Closed,
    /// The handle is open.
    Open,
    /// There was no memory.
    NoMemory,
    /// The text is no script.
    Bad {
        /// The first bad line, counted from 1; 0 where the text is too large.
        line: u32,
        /// The number of the cause.
        cause: u8,
    },
    /// The row stands for no command, whatever its lane.
    NoCommand,
    /// The log is full, or a hub without room for its renewal would come of it.
    Full,
    /// No reply is kept.
    NoReply,
    /// The reply has no step at the index.
    NoStep,
    /// An argument is neither a word nor within the bytes.
    NoArgument,
    /// A hub has no such lane, or not so many.
    NoLane,
    /// The seat of the lane is handed out already.
    Taken,
    /// Other handles still share the hub, or the library doesn't share a version.
    Shared,
    /// The reply leaves no job at the index.
    NoJob,
    /// No binding of that number was renewed, or the cycle has none of that index.
    NoBinding,
    /// The number that a binding had.
    Before(u16),
    /// How many seats are neither at the handle nor at home.
    Out(u64),
    /// The hub was ended, so that this isn't done any more.
    Ended,
    /// The hub was ended now, and its log has so many rows.
    Rows(u16),
    /// A row of its log.
    Row(Row),
    /// The hub wasn't ended, or its log has no row at the index.
    NoRow,
    /// A binding of a cycle.
    InCycle(u16),
    /// The command is accepted, and its row has this place.
    Accepted(u16),
    /// The command is refused.
    Refused {
        /// The place of the version at which it was judged.
        place: u16,
        /// Why.
        why: Why,
    },
    /// The reply to a raise.
    Raised {
        /// The place of the version on which it was done.
        place: u16,
        /// What it is told as.
        told: Told,
    },
    /// A step of a reply.
    Step(SpinStep),
    /// So many steps of it.
    Steps(u64),
    /// The bytes of such a step.
    Bytes(Octets),
}
