//! The types of events: parameters by kind, and whether the event gives a result.

ghost use Rattle.std.specs.Prelude.{◌≡◌, ◌<◌, ◌≤◌, ◌++◌, ◌↔◌, [], ◌∷◌, length, map};
ghost use Rattle.std.specs.Prelude.{slice_get, Some, OnOk, OnErr, IsTrue, MatchOption};

use crate::list::Sequence;
use crate::no_memory::NoMemory;
use std::alloc::Global;
use std::marker::Model;

/// What a value is.
#[derive(Clone, Copy, PartialEq, Eq, Debug)]
pub enum Kind {
    /// A word of 64 bits.
    Word,
    /// Any number of bytes.
    Bytes,
}

/// A parameter of an event.
#[derive(Clone, Copy, PartialEq, Eq, Debug)]
pub struct Param {
    /// What the argument is.
    pub kind: Kind,
    /// Whether a filter may change the argument for the handlers after it.
    pub var: bool,
}

/// The greatest number of parameters.
pub const MAX_PARAMS: usize = 8;

/// Parameters in order, at most [`MAX_PARAMS`]. Contracts see the list of them.
#[derive(Drop, Debug)]
pub struct Params {
    list: Sequence<Param>,
}

impl Model for Params {
    ghost use Rattle.std.specs.Prelude.{List, length, ◌≤◌};
    ghost use Rattle.spin_values.specs.declared.types.Param.{Param};
    ghost use Rattle.spin_values.specs.declared.types.TheConstants.{MAX_PARAMS};

    ghost Value = { List Param };

    ghost view = { λ p. p.list };

    ghost invariant = { λ p. length p.list ≤ MAX_PARAMS };
}

impl Params {
    /// No parameters.
    pub fn new(alloc: Global) -> Self
        ensures { result ≡ [] }
    {
        Params {
            list: Sequence::new(alloc),
        }
    }

    /// Adds the parameter at the end, where fewer than [`MAX_PARAMS`] are there. After want of memory the list
    /// is unchanged.
    pub fn push(&mut self, item: Param) -> Result<(), NoMemory>
        requires { length self.old < MAX_PARAMS }
        ensures ok { OnOk result (self.new ≡ self.old ++ item ∷ []) }
        ensures err { OnErr result (self.new ≡ self.old) }
    {
        self.list.push(item)
    }

    /// The number of parameters.
    pub fn len(&self) -> usize
        ensures len { result ≡ length self.now }
        ensures few { result ≤ MAX_PARAMS }
    {
        self.list.len()
    }

    /// The parameter at a place that is there, counted from 0.
    pub fn get(&self, at: usize) -> &Param
        requires { at < length self.now }
        ensures { slice_get self.now at ≡ Some result.now }
    {
        self.list.get(at)
    }

    /// All parameters in order.
    pub fn as_slice(&self) -> &[Param]
        ensures { result.now ≡ self.now }
    {
        self.list.as_slice()
    }

    /// Takes the first parameter out; `None` exactly where there is none. It takes no memory.
    pub fn take_first(&mut self) -> Option<Param>
        ensures { MatchOption result
            ((self.old ≡ []) × (self.new ≡ []))
            (λ first. self.old ≡ first ∷ self.new) }
    {
        self.list.take_first()
    }
}

/// The signature of an event: its parameters, and whether it gives a result.
#[derive(Drop, Debug)]
pub struct EventType {
    /// What the arguments have to be.
    pub params: Params,
    /// Whether handlers may give a result.
    pub gives: bool,
}

/// Whether two signatures are equal: parameters, their `var` marks, and the result. It takes no memory.
pub fn same_type(a: &EventType, b: &EventType) -> bool
    ensures { IsTrue result ↔ (a.now ≡ b.now) }
{
    a.gives == b.gives && a.params.as_slice() == b.params.as_slice()
}

/// Whether two signatures have the same number and kinds of parameters, whatever else differs. It takes no memory.
pub fn same_kinds(a: &EventType, b: &EventType) -> bool
    ensures { IsTrue result ↔ (map (λ p. p.kind) a.now.params ≡ map (λ p. p.kind) b.now.params) }
{
    if a.params.len() != b.params.len() {
        return false;
    }
    for at in 0..a.params.len() {
        if a.params.get(at).kind != b.params.get(at).kind {
            return false;
        }
    }
    true
}
