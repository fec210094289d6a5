//! Why no setup is made.

use thiserror::Error;

/// Why no setup is made.
#[derive(Clone, Copy, PartialEq, Eq, Debug, Error)]
pub enum SetupFault {
    /// The number of modules, of live bindings or of events is out of its range.
    #[error("too many, or no, modules, bindings or events")]
    TooMany,
    /// The owner of this event is no module.
    #[error("event {0} is owned by no module")]
    BadOwner(u8),
    /// The merge of this event has a fault.
    #[error("event {0} has a wrong merge")]
    BadMerge(u8),
    /// The act of this handler raises an event that isn't there, or has parameters of other kinds.
    #[error("handler {0} raises what is no such event")]
    BadUp(u16),
    /// The first default of this event can't serve it.
    #[error("event {0} has a wrong default")]
    BadDefault(u8),
    /// The native authoriser of this event isn't there, or a rule of it imposes a guard that can't serve it.
    #[error("event {0} has a wrong policy")]
    BadPolicy(u8),
}
