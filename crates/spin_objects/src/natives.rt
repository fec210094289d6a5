//! The natives that a program hands in: boxed handlers, guards and authorisers by name.

ghost use Rattle.std.specs.Prelude.{◌≡◌, ◌<◌, ◌≤◌, ◌++◌, [], ◌∷◌, length, slice_get};
ghost use Rattle.std.specs.Prelude.{Some, OnOk, OnErr, IfSome, IsSomeAnd, Ok};
ghost use Rattle.spin_code.specs.Check.{act_check, test_check};
ghost use Rattle.spin_code.specs.Truth.{truth_of};
ghost use Rattle.spin_policy.specs.Verdicts.{verdict_of};
ghost use Rattle.spin_objects.specs.Doing.{IsDone};
ghost use Rattle.spin_objects.specs.declared.kinds.TheConstants.{MAX_NATIVES};

use crate::item::Outcome;
use crate::kinds::{NativeFault, NativeKind, checked_refusal, keep};
use crate::object::{Guard, Handler};
use crate::pair::{NativeAuthoriser, NativeGuard, NativeHandler, place_of};
use spin_code::{Act, ActFault, Sincere, Test, check_act, check_test};
use spin_policy::{Authoriser, Policy, Request, Verdict};
use spin_values::{Args, EventType, NoMemory, Sequence, Text};
use std::alloc::Global;

// The place of a native, of which there are few.
fn as_index(found: Option<usize>) -> Option<u16>
    requires { IfSome found (λ at. at < MAX_NATIVES) }
    ensures { result ≡ found }
{
    match found {
        None => None,
        Some(at) => Some(at as u16),
    }
}

/// Boxed handlers, guards and authorisers, each kind in the order of adding, the first having index 0. Each is known
/// by the act, the test or the policy that it was handed in with.
#[derive(Drop)]
pub struct Natives {
    handlers: Sequence<NativeHandler>,
    guards: Sequence<NativeGuard>,
    authorisers: Sequence<NativeAuthoriser>,
    ghost few_handlers: { length handlers ≤ MAX_NATIVES },
    ghost few_guards: { length guards ≤ MAX_NATIVES },
    ghost few_authorisers: { length authorisers ≤ MAX_NATIVES },
}

/// Each object does, asks or follows what it was handed in with.
impl Sincere for Natives {
    ghost use Rattle.spin_objects.specs.Units.{IsSincere};

    ghost sincere = { IsSincere (λ n. (Handler-box n.object).does n.object.value)
        (λ n. (Guard-box n.object).asks n.object.value) (λ n. (Authoriser-box n.object).follows n.object.value) };
}

impl Natives {
    ghost use Rattle.spin_objects.specs.Units.{native_handlers, native_guards, native_authorisers};
    ghost use Rattle.spin_objects.specs.Units.{policies_of, names_of, index_of, handler_if, guard_if};
    ghost use Rattle.spin_objects.specs.Adding.{adding_refusal, IsNativeBy};

    /// No natives.
    pub fn new(alloc: Global) -> Natives
        ensures handlers { native_handlers result ≡ [] }
        ensures guards { native_guards result ≡ [] }
        ensures authorisers { native_authorisers result ≡ [] }
        ensures policies { policies_of result ≡ [] }
        ensures sincere { ⟦<Natives as Sincere>⟧.sincere result }
    {
        Natives {
            handlers: Sequence::new(alloc),
            guards: Sequence::new(alloc),
            authorisers: Sequence::new(alloc),
        }
    }

    // The first refusal of a native of this kind and name that was checked so.
    fn refusal(
        &self,
        kind: NativeKind,
        name: &Text,
        checked: Result<(), ActFault>,
    ) -> Option<NativeFault>
        ensures { result ≡ adding_refusal name.now (names_of kind self.now) checked }
    {
        match self.find(kind, name) {
            Some(_) => Some(NativeFault::SameName),
            None => checked_refusal(checked, usize::from(self.count(kind))),
        }
    }

    /// Adds a handler of this name, whose object does this act for events of this signature.
    ///
    /// [`NativeFault::SameName`] comes exactly where a native handler has the name, else [`NativeFault::Bad`] exactly
    /// where the check refuses the act, and else [`NativeFault::TooMany`] exactly where [`MAX_NATIVES`] native
    /// handlers are there. [`NativeFault::NoMemory`] comes only where none of these does. A refused object is dropped,
    /// and the natives are unchanged.
    pub fn add_handler(
        &mut self,
        name: Text,
        sig: EventType,
        act: Act,
        object: Box<dyn Handler + Send + Sync>,
    ) -> Result<(), NativeFault>
        requires object { does object ≡ act }
        requires sincere { ⟦<Natives as Sincere>⟧.sincere self.old }
        ensures sincere { ⟦<Natives as Sincere>⟧.sincere self.new }
        ensures added { OnOk result (native_handlers self.new ≡ native_handlers self.old
            ++ record { name = name; unit = record { sig = sig; act = act } } ∷ []) }
        ensures kept { OnErr result (native_handlers self.new ≡ native_handlers self.old) }
        ensures guards { native_guards self.new ≡ native_guards self.old }
        ensures authorisers { native_authorisers self.new ≡ native_authorisers self.old }
        ensures answer { IsNativeBy
            (adding_refusal name (names_of NativeKind.Handler self.old) (act_check act sig)) result }
    {
        let native = NativeHandler {
            name,
            sig,
            act,
            object,
        };
        let checked = check_act(&native.act, &native.sig);
        let refusal = self.refusal(NativeKind::Handler, &native.name, checked);
        keep(&mut self.handlers, native, refusal)
    }

    /// Adds a guard of this name, whose object asks this test of events of this signature.
    ///
    /// [`NativeFault::SameName`] comes exactly where a native guard has the name, else [`NativeFault::Bad`] exactly
    /// where the check refuses the test, and else [`NativeFault::TooMany`] exactly where [`MAX_NATIVES`] native
    /// guards are there. [`NativeFault::NoMemory`] comes only where none of these does. A refused object is dropped,
    /// and the natives are unchanged.
    pub fn add_guard(
        &mut self,
        name: Text,
        sig: EventType,
        test: Test,
        object: Box<dyn Guard + Send + Sync>,
    ) -> Result<(), NativeFault>
        requires object { asks object ≡ test }
        requires sincere { ⟦<Natives as Sincere>⟧.sincere self.old }
        ensures sincere { ⟦<Natives as Sincere>⟧.sincere self.new }
        ensures added { OnOk result (native_guards self.new ≡ native_guards self.old
            ++ record { name = name; unit = record { sig = sig; test = test } } ∷ []) }
        ensures kept { OnErr result (native_guards self.new ≡ native_guards self.old) }
        ensures handlers { native_handlers self.new ≡ native_handlers self.old }
        ensures authorisers { native_authorisers self.new ≡ native_authorisers self.old }
        ensures answer { IsNativeBy
            (adding_refusal name (names_of NativeKind.Guard self.old) (test_check test sig)) result }
    {
        let native = NativeGuard {
            name,
            sig,
            test,
            object,
        };
        let checked = check_test(&native.test, &native.sig);
        let refusal = self.refusal(NativeKind::Guard, &native.name, checked);
        keep(&mut self.guards, native, refusal)
    }

    /// Adds an authoriser of this name, whose object answers by this policy.
    ///
    /// [`NativeFault::SameName`] comes exactly where a native authoriser has the name, and else
    /// [`NativeFault::TooMany`] exactly where [`MAX_NATIVES`] native authorisers are there. [`NativeFault::NoMemory`]
    /// comes only where none of these does. A refused object is dropped, and the natives are unchanged.
    pub fn add_authoriser(
        &mut self,
        name: Text,
        policy: Policy,
        object: Box<dyn Authoriser + Send + Sync>,
    ) -> Result<(), NativeFault>
        requires object { follows object ≡ policy }
        requires sincere { ⟦<Natives as Sincere>⟧.sincere self.old }
        ensures sincere { ⟦<Natives as Sincere>⟧.sincere self.new }
        ensures added { OnOk result
            (native_authorisers self.new ≡ native_authorisers self.old ++ record { name = name; unit = policy } ∷ []) }
        ensures kept { OnErr result (native_authorisers self.new ≡ native_authorisers self.old) }
        ensures handlers { native_handlers self.new ≡ native_handlers self.old }
        ensures guards { native_guards self.new ≡ native_guards self.old }
        ensures answer { IsNativeBy (adding_refusal name (names_of NativeKind.Authoriser self.old) (Ok tt)) result }
    {
        let native = NativeAuthoriser {
            name,
            policy,
            object,
        };
        let refusal = self.refusal(NativeKind::Authoriser, &native.name, Ok(()));
        keep(&mut self.authorisers, native, refusal)
    }

    /// How many natives of the kind there are. An index is there exactly where it is below.
    pub fn count(&self, kind: NativeKind) -> u16
        ensures { result ≡ length (names_of kind self.now) }
    {
        match kind {
            NativeKind::Handler => self.handlers.len() as u16,
            NativeKind::Guard => self.guards.len() as u16,
            NativeKind::Authoriser => self.authorisers.len() as u16,
        }
    }

    /// The index of the native of this kind and name; `None` exactly where no native of the kind has the name. It
    /// takes no memory, and time linear in the number of natives of the kind.
    pub fn find(&self, kind: NativeKind, name: &Text) -> Option<u16>
        ensures { result ≡ index_of name.now (names_of kind self.now) }
    {
        match kind {
            NativeKind::Handler => as_index(place_of(self.handlers.as_slice(), name)),
            NativeKind::Guard => as_index(place_of(self.guards.as_slice(), name)),
            NativeKind::Authoriser => as_index(place_of(self.authorisers.as_slice(), name)),
        }
    }

    /// The name of a native that is there. It takes no memory.
    pub fn name_of(&self, kind: NativeKind, native: u16) -> &Text
        requires { native < length (names_of kind self.now) }
        ensures { slice_get (names_of kind self.now) native ≡ Some result.now }
    {
        match kind {
            NativeKind::Handler => &self.handlers.get(native as usize).name,
            NativeKind::Guard => &self.guards.get(native as usize).name,
            NativeKind::Authoriser => &self.authorisers.get(native as usize).name,
        }
    }

    /// The policy of a native authoriser that is there. It takes no memory.
    pub fn policy_of(&self, native: u16) -> &Policy
        requires { native < length (policies_of self.now) }
        ensures { slice_get (policies_of self.now) native ≡ Some result.now }
    {
        &self.authorisers.get(native as usize).policy
    }

    /// Asks a native authoriser that is there. It answers as its policy does, and takes no memory.
    pub fn judge(&self, native: u16, request: &Request) -> Verdict
        requires there { native < length (policies_of self.now) }
        requires sincere { ⟦<Natives as Sincere>⟧.sincere self.now }
        ensures { IsSomeAnd (slice_get (policies_of self.now) native)
            (λ policy. result ≡ verdict_of policy request.now) }
    {
        self.authorisers.get(native as usize).judge(request)
    }

    // A native handler that is there.
    pub(crate) fn handler(&self, native: u16) -> &NativeHandler
        requires { native < length self.now.handlers }
        ensures { slice_get self.now.handlers native ≡ Some result.now }
    {
        self.handlers.get(native as usize)
    }

    // A native guard that is there.
    pub(crate) fn guard(&self, native: u16) -> &NativeGuard
        requires { native < length self.now.guards }
        ensures { slice_get self.now.guards native ≡ Some result.now }
    {
        self.guards.get(native as usize)
    }

    // Has a native handler that is there do its act. After want of memory nothing is known of the arguments and the
    // outcome.
    pub(crate) fn run(
        &self,
        alloc: Global,
        native: u16,
        args: &mut Args,
        out: &mut Outcome,
    ) -> Result<(), NoMemory>
        requires there { native < length (native_handlers self.now) }
        requires sincere { ⟦<Natives as Sincere>⟧.sincere self.now }
        ensures { OnOk result
            (IsDone (handler_if (slice_get (native_handlers self.now) native)).act args.old out.old args.new out.new) }
    {
        self.handler(native).run(alloc, args, out)
    }

    // Asks a native guard that is there.
    pub(crate) fn admits(&self, native: u16, args: &Args) -> bool
        requires there { native < length (native_guards self.now) }
        requires sincere { ⟦<Natives as Sincere>⟧.sincere self.now }
        ensures { result ≡ truth_of (guard_if (slice_get (native_guards self.now) native)).test args.now }
    {
        self.guard(native).admits(args)
    }
}
