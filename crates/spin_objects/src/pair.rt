//! Natives: objects of another's making, each beside its name and the data that it was handed in with.

ghost use Rattle.std.specs.Prelude.{◌≡◌, ◌<◌, ℕ, List, length, position, OnOk, IfSome, bytes_eq};
ghost use Rattle.spin_code.specs.Truth.{truth_of};
ghost use Rattle.spin_policy.specs.Verdicts.{verdict_of};
ghost use Rattle.spin_objects.specs.Doing.{IsDone};

use crate::item::Outcome;
use crate::object::{Guard, Handler};
use spin_code::{Act, Test};
use spin_policy::{Authoriser, Policy, Request, Verdict};
use spin_values::{Args, EventType, NoMemory, Text};
use std::alloc::Global;

// What has a name.
pub(crate) trait HasName {
    ghost named: { Self → List ℕ };

    // Whether it has this name.
    fn is_named(&self, name: &Text) -> bool
        ensures { result ≡ bytes_eq (named self.now) name.now };
}

// The place of the first that has this name.
pub(crate) fn place_of<T: HasName>(all: &[T], name: &Text) -> Option<usize>
    ensures at { result ≡ position (λ n. bytes_eq (T.named n) name.now) all.now }
    ensures there { IfSome result (λ at. at < length all.now) }
{
    all.iter().position(|one| one.is_named(name))
}

// Whether the texts are equal.
fn is_same(a: &Text, b: &Text) -> bool
    ensures { result ≡ bytes_eq a.now b.now }
{
    a.as_slice() == b.as_slice()
}

/// A handler, and the act that it was handed in with.
#[derive(Drop)]
pub struct NativeHandler {
    pub(crate) name: Text,
    pub(crate) sig: EventType,
    pub(crate) act: Act,
    pub(crate) object: Box<dyn Handler + Send + Sync>,
}

impl HasName for NativeHandler {
    ghost named = { λ n. n.name };

    fn is_named(&self, name: &Text) -> bool {
        is_same(&self.name, name)
    }
}

impl NativeHandler {
    // Has the object do its act.
    pub(crate) fn run(
        &self,
        alloc: Global,
        args: &mut Args,
        out: &mut Outcome,
    ) -> Result<(), NoMemory>
        requires { does self.now.object ≡ self.now.act }
        ensures { OnOk result (IsDone self.now.act args.old out.old args.new out.new) }
    {
        self.object.run(alloc, args, out)
    }
}

/// A guard, and the test that it was handed in with.
#[derive(Drop)]
pub struct NativeGuard {
    pub(crate) name: Text,
    pub(crate) sig: EventType,
    pub(crate) test: Test,
    pub(crate) object: Box<dyn Guard + Send + Sync>,
}

impl HasName for NativeGuard {
    ghost named = { λ n. n.name };

    fn is_named(&self, name: &Text) -> bool {
        is_same(&self.name, name)
    }
}

impl NativeGuard {
    // Asks the object its test.
    pub(crate) fn admits(&self, args: &Args) -> bool
        requires { asks self.now.object ≡ self.now.test }
        ensures { result ≡ truth_of self.now.test args.now }
    {
        self.object.admits(args)
    }
}

/// An authoriser, and the policy that it was handed in with.
#[derive(Drop)]
pub struct NativeAuthoriser {
    pub(crate) name: Text,
    pub(crate) policy: Policy,
    pub(crate) object: Box<dyn Authoriser + Send + Sync>,
}

impl HasName for NativeAuthoriser {
    ghost named = { λ n. n.name };

    fn is_named(&self, name: &Text) -> bool {
        is_same(&self.name, name)
    }
}

impl NativeAuthoriser {
    // Asks the object for the answer of its policy.
    pub(crate) fn judge(&self, request: &Request) -> Verdict
        requires { follows self.now.object ≡ self.now.policy }
        ensures { result ≡ verdict_of self.now.policy request.now }
    {
        self.object.judge(request)
    }
}
