//! What is asked of an open raise, and what it comes to.

use crate::step::SpinStep;
use spin_host::{Gift, Spare};
use spin_values::{Args, Octets};
use std::alloc::Global;

/// What is asked of the handle of an open raise.
#[derive(Drop)]
pub enum Move {
    /// To lend the spare lists of the raise that is open.
    Lend,
    /// To lend those of the last raise, where none is open.
    LendIdle,
    /// To take spare lists back.
    Keep(Spare),
    /// The same, where there was no memory for what is handed in: to tell that, or first that no firing is due.
    Miss(Spare),
    /// To open a raise from within.
    Within {
        /// The number of the event.
        event: u8,
        /// Its arguments.
        args: Args,
        /// The spare lists that were lent.
        spare: Spare,
    },
    /// To tell what comes next.
    Next,
    /// To tell an argument of the innermost raise.
    Argument(u64),
    /// To do the declared act of what is due.
    Do,
    /// To tell what the last answer gave at this index.
    Given(u64),
    /// To hand out the bytes that it sends.
    GivenBytes(u64),
    /// To take this in the place of what is due.
    Gave {
        /// What the host's own handler gave.
        gift: Gift,
        /// The spare lists that were lent.
        spare: Spare,
    },
    /// To pass over what is due.
    Decline,
    /// To end the raise where it stands.
    Abandon,
    /// To close the handle.
    Forget,
}

/// A call of the handle of an open raise.
#[derive(Drop)]
pub struct MoveCall {
    pub(crate) alloc: Global,
    pub(crate) asked: Move,
}

/// What is asked of a lane and of the handle of an open raise: a raise.
#[derive(Drop)]
pub struct Begin {
    pub(crate) alloc: Global,
    pub(crate) event: u8,
    pub(crate) args: Args,
    pub(crate) spare: Spare,
}

/// What such a call comes to.
#[derive(Drop)]
pub enum Upshot {
    /// It was done.
    Done,
    /// The lane's handle is closed, or no raise is open.
    Closed,
    /// A raise is open.
    Open,
    /// There was no memory.
    NoMemory,
    /// An argument is neither a word nor within the bytes, or there is none at the index; or a gift is none.
    NoArgument,
    /// The last answer gave nothing at the index.
    NoStep,
    /// The hub was ended.
    Ended,
    /// The raise isn't opened.
    NotRaised {
        /// The place of the version.
        place: u16,
        /// Why: 5 no such event, 6 other arguments.
        kind: u32,
    },
    /// No firing is due.
    NotDue,
    /// The event isn't greater than the one that is raised.
    Downward,
    /// What the handler gave is refused, by the number of its fault.
    Refused(u32),
    /// A raise is open on the version of this place.
    Begun(u16),
    /// What comes next, or was given.
    Told(SpinStep),
    /// An argument that is a word.
    Word(u64),
    /// Bytes: an argument, or what is sent.
    Bytes(Octets),
    /// The answer gave so many things.
    Gave(u64),
    /// The spare lists.
    Lent(Spare),
}
