//! What the calls of a seat come to.

use spin_proto::Reply;
use spin_table::{Verdicted, Version};
use spin_values::NoMemory;
use std::sync::Arc;
use thiserror::Error;

/// The reply to a deed.
#[derive(Drop)]
pub struct Raised {
    /// The place of the version on which it was done: that of the log's first state, which is 0 at the
    /// start, and one more for each row that the log had at that moment.
    pub place: u16,
    /// What the deed came to.
    pub reply: Reply,
    /// The version on which it was done, for the jobs that the reply leaves.
    pub pinned: Arc<Version>,
}

/// The verdict on a command.
#[derive(PartialEq, Drop, Debug)]
pub struct Judged {
    /// Where it was accepted the place of its own row, which a binding that it installs has as its
    /// number: one more than the place before, the first row's one more than that of the log's first
    /// state, which is 0 at the start. Else the place of the last row that the log had at the moment of
    /// the refusal.
    pub place: u16,
    /// What became of it.
    pub verdict: Verdicted,
}

/// Why a command has no verdict. It wasn't published then.
#[derive(Debug, Clone, Copy, PartialEq, Eq, Error)]
pub enum SeatFault {
    /// No place is left after the seat's front: places, the numbers of bindings, go up to
    /// [`MAX_PLACE`](spin_word::MAX_PLACE).
    #[error("the log is full")]
    Full,
    /// There was no memory for the next version.
    #[error("out of memory")]
    NoMemory,
}

impl From<NoMemory> for SeatFault {
    ghost use Rattle.std.specs.Prelude.{◌≡◌};
    ghost use Rattle.spin_seat.specs.declared.answer.SeatFault.TheVariants as fault;

    ghost from_gives = { λ _ e. e ≡ fault.NoMemory };

    fn from(_: NoMemory) -> SeatFault {
        SeatFault::NoMemory
    }
}
