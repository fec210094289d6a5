//! The kinds of natives, and why a native is refused.

ghost use Rattle.std.specs.Prelude.{◌≡◌, ◌++◌, [], ◌∷◌, OnOk, OnErr};
ghost use Rattle.spin_objects.specs.Adding as specs;

use spin_code::ActFault;
use spin_values::{NoMemory, Sequence};
use thiserror::Error;

/// The greatest number of natives of one kind.
pub const MAX_NATIVES: usize = 64;

/// The kinds of natives. Each kind has names and indexes of its own.
#[derive(Debug, Clone, Copy, PartialEq, Eq)]
pub enum NativeKind {
    /// Handlers.
    Handler,
    /// Guards.
    Guard,
    /// Authorisers.
    Authoriser,
}

/// Why a native is refused. The first of these, in this order, that applies is answered.
#[derive(Debug, Clone, Copy, PartialEq, Eq, Error)]
pub enum NativeFault {
    /// A native of the kind has the name.
    #[error("a native of the kind has the name")]
    SameName,
    /// The act or the test has this fault.
    #[error("its check refuses it: {0}")]
    Bad(ActFault),
    /// There are [`MAX_NATIVES`] of its kind.
    #[error("64 of the kind are there")]
    TooMany,
    /// There was no memory for it.
    #[error("out of memory")]
    NoMemory,
}

// The first refusal of a native that was checked so, where so many of its kind are there.
pub(crate) fn checked_refusal(checked: Result<(), ActFault>, count: usize) -> Option<NativeFault>
    ensures { result ≡ specs.checked_refusal checked count }
{
    match checked {
        Err(fault) => Some(NativeFault::Bad(fault)),
        Ok(()) if count < MAX_NATIVES => None,
        Ok(()) => Some(NativeFault::TooMany),
    }
}

// Adds a native to those of its kind, which stay as they are where it is refused, or where there is no memory for it.
pub(crate) fn keep<T: Drop>(
    natives: &mut Sequence<T>,
    native: T,
    refusal: Option<NativeFault>,
) -> Result<(), NativeFault>
    ensures added { OnOk result (natives.new ≡ natives.old ++ native ∷ []) }
    ensures kept { OnErr result (natives.new ≡ natives.old) }
    ensures answer { specs.IsNativeBy refusal result }
{
    match refusal {
        Some(fault) => Err(fault),
        None => match natives.push(native) {
            Ok(()) => Ok(()),
            Err(NoMemory) => Err(NativeFault::NoMemory),
        },
    }
}
