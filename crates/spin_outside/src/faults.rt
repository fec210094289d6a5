//! The answers of the outside that aren't success.

ghost use Rattle.std.specs.Prelude.{◌≡◌, ◌↔◌};
ghost use Rattle.spin_outside.specs.declared.faults.TakeFault.TheVariants as taking;

use spin_values::NoMemory;
use std::io::ErrorKind;
use thiserror::Error;

/// The object failed, and its count of faults rose.
#[derive(Clone, Copy, Debug, PartialEq, Eq, Error)]
#[error("the object failed")]
pub struct Failed;

/// Why a file isn't found.
#[derive(Clone, Copy, Debug, PartialEq, Eq, Error)]
pub enum FindFault {
    /// No file has the name. It alone raises the shelf's count of absences.
    #[error("no such file")]
    Absent,
    /// The shelf failed, and its count of faults rose.
    #[error("the shelf failed")]
    Failed,
    /// There was no memory.
    #[error("out of memory")]
    NoMemory,
}

/// Which refusal of a find an error of that kind is, when a file is opened: an absence exactly at `NotFound`, want of
/// memory exactly at `OutOfMemory`, and a failure of the shelf at every other.
pub fn fault_of(kind: ErrorKind) -> FindFault
    ensures absent { (result ≡ FindFault.Absent) ↔ (kind ≡ ErrorKind.NotFound) }
    ensures memory { (result ≡ FindFault.NoMemory) ↔ (kind ≡ ErrorKind.OutOfMemory) }
{
    match kind {
        ErrorKind::NotFound => FindFault::Absent,
        ErrorKind::OutOfMemory => FindFault::NoMemory,
        _ => FindFault::Failed,
    }
}

/// Why a file isn't taken whole.
#[derive(Clone, Copy, Debug, PartialEq, Eq, Error)]
pub enum TakeFault {
    /// A read failed, and the shelf's count of faults rose.
    #[error("a read failed")]
    Failed,
    /// More bytes are left than the limit.
    #[error("more bytes are left than the limit")]
    TooLarge,
    /// There was no memory.
    #[error("out of memory")]
    NoMemory,
}

impl From<Failed> for TakeFault {
    ghost from_gives = { λ _ e. e ≡ taking.Failed };

    fn from(_: Failed) -> Self {
        TakeFault::Failed
    }
}

impl From<NoMemory> for TakeFault {
    ghost from_gives = { λ _ e. e ≡ taking.NoMemory };

    fn from(_: NoMemory) -> Self {
        TakeFault::NoMemory
    }
}
