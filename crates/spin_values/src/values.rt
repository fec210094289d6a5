//! Values and arguments.

ghost use Rattle.std.specs.Prelude.{◌≡◌, ◌≤◌, ◌↔◌, [], ◌∷◌, map, length, OnOk, OnErr, IsTrue, Some, Err, IfOk};
ghost use Rattle.spin_values.specs.declared.values.Value.TheVariants as value;
ghost use Rattle.spin_values.specs.Kinds.{kind_of, kinds_of, kind_at, with_word};

use crate::list::{Octets, Sequence};
use crate::no_memory::NoMemory;
use crate::types::{EventType, Kind};
use std::alloc::Global;
use thiserror::Error;

/// An argument of an event.
#[derive(PartialEq, Drop, Debug)]
pub enum Value {
    /// A word of 64 bits.
    Word(u64),
    /// Bytes.
    Bytes(Octets),
}

impl Value {
    /// Which kind of value it is.
    pub fn kind(&self) -> Kind
        ensures { result ≡ kind_of self.now }
    {
        match self {
            Value::Word(_) => Kind::Word,
            Value::Bytes(_) => Kind::Bytes,
        }
    }

    /// An equal value.
    pub fn copy(&self) -> Result<Value, NoMemory>
        ensures { IfOk result (λ copy. copy ≡ self.now) }
    {
        match self {
            Value::Word(word) => Ok(Value::Word(*word)),
            Value::Bytes(bytes) => Ok(Value::Bytes(bytes.copy()?)),
        }
    }
}

/// The arguments of a raise, in the order of the parameters.
pub type Args = Sequence<Value>;

impl Sequence<Value> {
    /// An equal list, with no room for more.
    pub fn copy(&self) -> Result<Args, NoMemory>
        ensures { IfOk result (λ copy. copy ≡ self.now) }
    {
        let mut copy = Sequence::with_capacity(self.allocator(), self.len())?;
        for value in self.as_slice() {
            copy.push(value.copy()?)?;
        }
        Ok(copy)
    }

    /// The one argument of these bytes, which are copied.
    pub fn of_bytes(alloc: Global, bytes: &Octets) -> Result<Args, NoMemory>
        ensures { IfOk result (λ args. args ≡ value.Bytes bytes.now ∷ []) }
    {
        let mut args = Sequence::with_capacity(alloc, 1)?;
        args.push(Value::Bytes(bytes.copy()?))?;
        Ok(args)
    }
}

/// Whether the arguments have exactly the number and kinds of the parameters. It takes no memory.
pub fn fits(args: &Args, sig: &EventType) -> bool
    ensures { IsTrue result ↔ (map kind_of args.now ≡ kinds_of sig.now) }
{
    if args.len() != sig.params.len() {
        return false;
    }
    for at in 0..args.len() {
        if args.get(at).kind() != sig.params.get(at).kind {
            return false;
        }
    }
    true
}

/// Why a word isn't set.
#[derive(Clone, Copy, PartialEq, Eq, Debug, Error)]
pub enum SetFault {
    /// There is no argument of that number.
    #[error("no such argument")]
    NoSuch,
    /// The argument is bytes.
    #[error("the argument is bytes, not a word")]
    WrongKind,
}

/// Replaces the word of argument `at`, counted from 0. It takes no memory.
///
/// The answer is [`SetFault::NoSuch`] exactly where `at` isn't below the number of arguments, and
/// [`SetFault::WrongKind`] exactly where that argument is bytes; after either the arguments are unchanged.
pub fn set(args: &mut Args, at: u8, value: u64) -> Result<(), SetFault>
    ensures no_such { (result ≡ Err SetFault.NoSuch) ↔ (length args.old ≤ at) }
    ensures wrong_kind { (result ≡ Err SetFault.WrongKind)
        ↔ (kind_at args.old at ≡ Some Kind.Bytes) }
    ensures args { args.new ≡ with_word args.old at value }
{
    let at = at as usize;
    if at >= args.len() {
        return Err(SetFault::NoSuch);
    }
    match args.get(at) {
        Value::Bytes(_) => Err(SetFault::WrongKind),
        Value::Word(_) => {
            args.replace(at, Value::Word(value));
            Ok(())
        }
    }
}
