//! Why a part of a line isn't read.

ghost use Rattle.std.specs.Prelude.{◌≡◌};
ghost use Rattle.spin_grammar.specs.declared.fault.Fault.TheVariants.{NoMemory, Bad};

use crate::cause::Cause;
use spin_values::NoMemory;
use std::alloc::AllocFailed;
use thiserror::Error;

/// Why a part of a line isn't read.
#[derive(Clone, Copy, Debug, PartialEq, Eq, Error)]
pub enum Fault {
    /// There was no memory.
    #[error("out of memory")]
    NoMemory,
    /// It isn't in the grammar.
    #[error("{0}")]
    Bad(Cause),
}

impl From<NoMemory> for Fault {
    ghost from_gives = { λ _ e. e ≡ NoMemory };

    fn from(_: NoMemory) -> Fault {
        Fault::NoMemory
    }
}

impl From<Cause> for Fault {
    ghost from_gives = { λ c e. e ≡ Bad c };

    fn from(cause: Cause) -> Fault {
        Fault::Bad(cause)
    }
}

impl<T: Drop> From<AllocFailed<T>> for Fault {
    ghost from_gives = { λ _ e. e ≡ NoMemory };

    fn from(_: AllocFailed<T>) -> Fault {
        Fault::NoMemory
    }
}
