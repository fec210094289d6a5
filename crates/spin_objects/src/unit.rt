//! Handlers and guards as they are handed to a catalogue, and why they are refused.

ghost use Rattle.std.specs.Prelude.{◌≡◌, ◌+◌, ◌<◌, ◌++◌, [], ◌∷◌, length, None, OnOk, OnErr, IfOk};
ghost use Rattle.spin_objects.specs.Adding as specs;
ghost use Rattle.spin_objects.specs.declared.unit.TheConstants.{MAX_UNITS};

use spin_code::{Act, ActFault, Test, check_act, check_test};
use spin_values::{EventType, NoMemory, Sequence};
use thiserror::Error;

/// What a handler is.
#[derive(Drop)]
pub enum Body {
    /// It does this act, for events of this signature.
    Coded(EventType, Act),
    /// It is the native handler of this index.
    Native(u16),
}

/// What a guard is.
#[derive(Drop)]
pub enum Check {
    /// It asks this test, of events of these parameters.
    Coded(EventType, Test),
    /// It is the native guard of this index.
    Native(u16),
}

impl Body {
    ghost use Rattle.spin_objects.specs.Units.{native_of_body};
    ghost use Rattle.spin_objects.specs.Adding.{handler_refusal};

    // The index of the native that it is.
    pub(crate) fn native(&self) -> Option<u16>
        ensures { result ≡ native_of_body self.now }
    {
        match self {
            Body::Coded(..) => None,
            Body::Native(native) => Some(*native),
        }
    }

    // The first refusal of it, where there are so many natives and handlers.
    pub(crate) fn refusal(&self, natives: u16, count: usize) -> Option<CatalogueFault>
        ensures { result ≡ handler_refusal self.now natives count }
    {
        match self {
            Body::Coded(sig, act) => refusal(check_act(act, sig), count),
            Body::Native(native) => native_refusal(*native, natives, count),
        }
    }
}

impl Check {
    ghost use Rattle.spin_objects.specs.Units.{native_of_check};
    ghost use Rattle.spin_objects.specs.Adding.{guard_refusal};

    // The index of the native that it is.
    pub(crate) fn native(&self) -> Option<u16>
        ensures { result ≡ native_of_check self.now }
    {
        match self {
            Check::Coded(..) => None,
            Check::Native(native) => Some(*native),
        }
    }

    // The first refusal of it, where there are so many natives and guards.
    pub(crate) fn refusal(&self, natives: u16, count: usize) -> Option<CatalogueFault>
        ensures { result ≡ guard_refusal self.now natives count }
    {
        match self {
            Check::Coded(sig, test) => refusal(check_test(test, sig), count),
            Check::Native(native) => native_refusal(*native, natives, count),
        }
    }
}

/// Why a handler or a guard is refused. The first of these, in this order, that applies is answered.
#[derive(Debug, Clone, Copy, PartialEq, Eq, Error)]
pub enum CatalogueFault {
    /// The coded act or test has this fault.
    #[error("its check refuses it: {0}")]
    Bad(ActFault),
    /// There are [`MAX_UNITS`] of its kind.
    #[error("1023 of the kind are there")]
    TooMany,
    /// There is no native of this index.
    #[error("there is no such native")]
    NoNative,
    /// There was no memory for it.
    #[error("out of memory")]
    NoMemory,
}

/// The greatest number of handlers, and that of guards.
pub const MAX_UNITS: usize = 1023;

// The first refusal of what was checked so, where so many of its kind are there.
fn refusal(checked: Result<(), ActFault>, count: usize) -> Option<CatalogueFault>
    ensures { result ≡ specs.refusal checked count }
{
    match checked {
        Err(fault) => Some(CatalogueFault::Bad(fault)),
        Ok(()) if count < MAX_UNITS => None,
        Ok(()) => Some(CatalogueFault::TooMany),
    }
}

// The first refusal of the native of an index, where there are so many natives and so many of its kind.
fn native_refusal(native: u16, natives: u16, count: usize) -> Option<CatalogueFault>
    ensures { result ≡ specs.native_refusal native natives count }
{
    if count >= MAX_UNITS {
        return Some(CatalogueFault::TooMany);
    }
    if native >= natives {
        return Some(CatalogueFault::NoNative);
    }
    None
}

// Adds a handler or a guard to those that are there, and answers its number, the first being 1. They stay as they are
// where it is refused, or where there is no memory for it.
pub(crate) fn keep<T: Drop>(
    units: &mut Sequence<T>,
    unit: T,
    refusal: Option<CatalogueFault>,
) -> Result<u16, CatalogueFault>
    requires room { refusal ≡ None → length units.old < MAX_UNITS }
    ensures number { IfOk result (λ number. number ≡ length units.old + 1) }
    ensures added { OnOk result (units.new ≡ units.old ++ unit ∷ []) }
    ensures kept { OnErr result (units.new ≡ units.old) }
    ensures answer { specs.IsBy refusal result }
{
    match refusal {
        Some(fault) => Err(fault),
        None => {
            let number = units.len() as u16 + 1;
            match units.push(unit) {
                Ok(()) => Ok(number),
                Err(NoMemory) => Err(CatalogueFault::NoMemory),
            }
        }
    }
}
