//! What a host is told, and how its answer is refused.

use crate::gift::GiftFault;
use spin_values::NoMemory;
use spin_word::Mode;
use thiserror::Error;

/// A firing that a host is told, and answers.
#[derive(Clone, Copy, PartialEq, Eq, Debug)]
pub struct Firing {
    /// The event that is raised.
    pub event: u8,
    /// The number of the binding, 0 being the event's default.
    pub number: u16,
    /// The number of the handler.
    pub handler: u16,
    /// How the handler runs. One that is asynchronous runs apart, as a job of the arguments.
    pub mode: Mode,
}

/// Why an answer of the host isn't taken.
#[derive(Clone, Copy, PartialEq, Eq, Debug, Error)]
pub enum AnswerFault {
    /// Nothing was told that isn't answered.
    #[error("no firing is due")]
    NotDue,
    /// What was given is refused.
    #[error("{0}")]
    Refused(GiftFault),
    /// There was no memory.
    #[error("out of memory")]
    NoMemory,
}

impl From<NoMemory> for AnswerFault {
    ghost use Rattle.std.specs.Prelude.{◌≡◌};
    ghost use Rattle.spin_host.specs.declared.firing.AnswerFault.TheVariants as fault;

    ghost from_gives = { λ _ e. e ≡ fault.NoMemory };

    fn from(_: NoMemory) -> AnswerFault {
        AnswerFault::NoMemory
    }
}
