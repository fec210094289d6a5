//! The handlers and guards that bindings name by their numbers.

ghost use Rattle.std.specs.Prelude.{◌≡◌, ◌+◌, ◌-◌, ◌<◌, ◌≤◌, ◌++◌, [], ◌∷◌, length};
ghost use Rattle.std.specs.Prelude.{All, Some, OnOk, OnErr, IfOk, IfSome, IsSomeAnd};
ghost use Rattle.spin_objects.specs.Doing.{IsDone};
ghost use Rattle.spin_objects.specs.declared.unit.TheConstants.{MAX_UNITS};
ghost use Rattle.spin_objects.specs.There.{IsBodyThere, IsCheckThere, IsBodyThere-prop, IsCheckThere-prop};

use crate::item::Outcome;
use crate::kinds::NativeKind;
use crate::natives::Natives;
use crate::run::run_act;
use crate::unit::{Body, CatalogueFault, Check, keep};
use spin_code::{Act, Guards, Sincere, Test, holds};
use spin_values::{Args, EventType, NoMemory, Sequence, Steps};
use std::alloc::Global;
use std::sync::ledger::Ledger;

/// The handlers and guards that bindings name, each numbered from 1 in the order of adding, and the natives that some
/// of them are.
///
/// Contracts see them as lists of acts and tests, each with its signature: a native one counts as the act or the test
/// that it was handed in with.
#[derive(Drop)]
pub struct Catalogue {
    natives: Natives,
    bodies: Sequence<Body>,
    checks: Sequence<Check>,
    ghost few_bodies: { length bodies ≤ MAX_UNITS },
    ghost few_checks: { length checks ≤ MAX_UNITS },
    ghost bodies_there: { All (IsBodyThere (length natives.handlers)) bodies } by { Prim.hlevel IsBodyThere-prop },
    ghost checks_there: { All (IsCheckThere (length natives.guards)) checks } by { Prim.hlevel IsCheckThere-prop },
}

/// Each native does, asks or follows what it was handed in with.
impl Sincere for Catalogue {
    ghost use Rattle.spin_objects.specs.Units.{IsSincere};

    ghost sincere = { λ c. IsSincere (λ n. (Handler-box n.object).does n.object.value) (λ n.
        (Guard-box n.object).asks n.object.value) (λ n. (Authoriser-box n.object).follows n.object.value) c.natives };
}

impl Catalogue {
    ghost use Rattle.spin_objects.specs.Units.{native_handlers, native_guards, handlers_of, guards_of};
    ghost use Rattle.spin_objects.specs.Units.{acts_of, tests_of, unit_of_body, unit_of_check, native_of_body};
    ghost use Rattle.spin_objects.specs.Units.{native_of_check, handler_natives, guard_natives, act_at};
    ghost use Rattle.spin_values.specs.First.{numbered};
    ghost use Rattle.spin_objects.specs.Adding.{IsBy, handler_refusal, guard_refusal};

    /// No handlers and no guards, and these natives.
    pub fn new(alloc: Global, natives: Natives) -> Catalogue
        requires { ⟦<Natives as Sincere>⟧.sincere natives }
        ensures handlers { handlers_of result ≡ [] }
        ensures guards { guards_of result ≡ [] }
        ensures natives { result.natives ≡ natives }
        ensures sincere { ⟦<Catalogue as Sincere>⟧.sincere result }
    {
        Catalogue {
            natives,
            bodies: Sequence::new(alloc),
            checks: Sequence::new(alloc),
        }
    }

    /// Adds a handler, and answers its number, the first being 1.
    ///
    /// [`CatalogueFault::Bad`] comes exactly where the check refuses a coded act, else [`CatalogueFault::TooMany`]
    /// exactly where [`MAX_UNITS`](crate::MAX_UNITS) handlers are there, and else [`CatalogueFault::NoNative`] exactly
    /// where there is no native handler of the index. [`CatalogueFault::NoMemory`] comes only where none of these does.
    /// After a refusal the catalogue is unchanged.
    pub fn add_handler(&mut self, body: Body) -> Result<u16, CatalogueFault>
        requires { ⟦<Catalogue as Sincere>⟧.sincere self.old }
        ensures sincere { ⟦<Catalogue as Sincere>⟧.sincere self.new }
        ensures number { IfOk result (λ number. number ≡ length (handlers_of self.old) + 1) }
        ensures added { OnOk result
            (handlers_of self.new ≡ handlers_of self.old ++ unit_of_body (native_handlers self.old.natives) body ∷ []) }
        ensures as_native { OnOk result
            (handler_natives self.new ≡ handler_natives self.old ++ native_of_body body ∷ []) }
        ensures kept { OnErr result (handlers_of self.new ≡ handlers_of self.old) }
        ensures kept_native { OnErr result (handler_natives self.new ≡ handler_natives self.old) }
        ensures guards { guards_of self.new ≡ guards_of self.old }
        ensures guard_natives { guard_natives self.new ≡ guard_natives self.old }
        ensures natives { self.new.natives ≡ self.old.natives }
        ensures answer { IsBy
            (handler_refusal body (length (native_handlers self.old.natives)) (length (handlers_of self.old))) result }
    {
        let natives = self.natives.count(NativeKind::Handler);
        let refusal = body.refusal(natives, self.bodies.len());
        keep(&mut self.bodies, body, refusal)
    }

    /// Adds a guard, and answers its number, the first being 1.
    ///
    /// [`CatalogueFault::Bad`] comes exactly where the check refuses a coded test, else [`CatalogueFault::TooMany`]
    /// exactly where [`MAX_UNITS`](crate::MAX_UNITS) guards are there, and else [`CatalogueFault::NoNative`] exactly
    /// where there is no native guard of the index. [`CatalogueFault::NoMemory`] comes only where none of these does.
    /// After a refusal the catalogue is unchanged.
    pub fn add_guard(&mut self, check: Check) -> Result<u16, CatalogueFault>
        requires { ⟦<Catalogue as Sincere>⟧.sincere self.old }
        ensures sincere { ⟦<Catalogue as Sincere>⟧.sincere self.new }
        ensures number { IfOk result (λ number. number ≡ length (guards_of self.old) + 1) }
        ensures added { OnOk result
            (guards_of self.new ≡ guards_of self.old ++ unit_of_check (native_guards self.old.natives) check ∷ []) }
        ensures as_native { OnOk result
            (guard_natives self.new ≡ guard_natives self.old ++ native_of_check check ∷ []) }
        ensures kept { OnErr result (guards_of self.new ≡ guards_of self.old) }
        ensures kept_native { OnErr result (guard_natives self.new ≡ guard_natives self.old) }
        ensures handlers { handlers_of self.new ≡ handlers_of self.old }
        ensures handler_natives { handler_natives self.new ≡ handler_natives self.old }
        ensures natives { self.new.natives ≡ self.old.natives }
        ensures answer { IsBy
            (guard_refusal check (length (native_guards self.old.natives)) (length (guards_of self.old))) result }
    {
        let natives = self.natives.count(NativeKind::Guard);
        let refusal = check.refusal(natives, self.checks.len());
        keep(&mut self.checks, check, refusal)
    }

    // The handler of a number that is there.
    #[inline]
    fn body(&self, handler: u16) -> &Body
        requires first { 0 < handler }
        requires last { handler ≤ length (handlers_of self.now) }
        ensures body { numbered self.now.bodies handler ≡ Some result.now }
        ensures there { IsBodyThere (length self.now.natives.handlers) result.now }
    {
        self.bodies.get(handler as usize - 1)
    }

    // The guard of a number that is there.
    #[inline]
    fn check(&self, guard: u16) -> &Check
        requires first { 0 < guard }
        requires last { guard ≤ length (guards_of self.now) }
        ensures check { numbered self.now.checks guard ≡ Some result.now }
        ensures there { IsCheckThere (length self.now.natives.guards) result.now }
    {
        self.checks.get(guard as usize - 1)
    }

    /// The natives.
    pub fn natives(&self) -> &Natives
        ensures { result.now ≡ self.now.natives }
    {
        &self.natives
    }

    /// Of a handler that is there, the index of the native that it is; `None` exactly where it is coded.
    #[inline]
    pub fn native_handler(&self, handler: u16) -> Option<u16>
        requires first { 0 < handler }
        requires last { handler ≤ length (handlers_of self.now) }
        ensures native { numbered (handler_natives self.now) handler ≡ Some result }
        ensures there { IfSome result (λ native. native < length (native_handlers self.now.natives)) }
    {
        self.body(handler).native()
    }

    /// Of a guard that is there, the index of the native that it is; `None` exactly where it is coded.
    #[inline]
    pub fn native_guard(&self, guard: u16) -> Option<u16>
        requires first { 0 < guard }
        requires last { guard ≤ length (guards_of self.now) }
        ensures native { numbered (guard_natives self.now) guard ≡ Some result }
        ensures there { IfSome result (λ native. native < length (native_guards self.now.natives)) }
    {
        self.check(guard).native()
    }

    /// How many handlers there are.
    pub fn handlers(&self) -> u16
        ensures { result ≡ length (handlers_of self.now) }
    {
        self.bodies.len() as u16
    }

    /// The act of a handler that is there.
    #[inline]
    pub fn act_of(&self, handler: u16) -> &Act
        requires first { 0 < handler }
        requires last { handler ≤ length (acts_of self.now) }
        ensures { numbered (acts_of self.now) handler ≡ Some result.now }
    {
        match self.body(handler) {
            Body::Coded(_, act) => act,
            Body::Native(native) => &self.natives.handler(*native).act,
        }
    }

    /// The signature of a handler that is there.
    pub fn type_of(&self, handler: u16) -> &EventType
        requires first { 0 < handler }
        requires last { handler ≤ length (handlers_of self.now) }
        ensures { IsSomeAnd (numbered (handlers_of self.now) handler) (λ u. result.now ≡ u.sig) }
    {
        match self.body(handler) {
            Body::Coded(sig, _) => sig,
            Body::Native(native) => &self.natives.handler(*native).sig,
        }
    }

    /// The signature of a guard that is there.
    pub fn guard_type(&self, guard: u16) -> &EventType
        requires first { 0 < guard }
        requires last { guard ≤ length (guards_of self.now) }
        ensures { IsSomeAnd (numbered (guards_of self.now) guard) (λ u. result.now ≡ u.sig) }
    {
        match self.check(guard) {
            Check::Coded(sig, _) => sig,
            Check::Native(native) => &self.natives.guard(*native).sig,
        }
    }

    /// Does the act of a handler that is there, by its object where it is native: changes the arguments, and appends
    /// what the act gives. After want of memory nothing is known of the two.
    #[inline]
    pub fn run(
        &self,
        alloc: Global,
        handler: u16,
        args: &mut Args,
        out: &mut Outcome,
    ) -> Result<(), NoMemory>
        requires first { 0 < handler }
        requires last { handler ≤ length (acts_of self.now) }
        requires sincere { ⟦<Catalogue as Sincere>⟧.sincere self.now }
        ensures { OnOk result (IsDone (act_at (acts_of self.now) handler) args.old out.old args.new out.new) }
    {
        match self.native_handler(handler) {
            None => run_act(alloc, self.act_of(handler), args, out),
            Some(native) => self.natives.run(alloc, native, args, out),
        }
    }
}

impl Guards for Catalogue {
    ghost use Rattle.spin_objects.specs.Units.{tests_of};

    ghost tests = { tests_of };

    ghost counts = { λ _ _. Unit {0} };

    fn count(&self) -> u16 {
        self.checks.len() as u16
    }

    #[inline]
    fn test_of(&self, guard: u16) -> &Test {
        match self.check(guard) {
            Check::Coded(_, test) => test,
            Check::Native(native) => &self.natives.guard(*native).test,
        }
    }

    /// Asks the object where the guard is native.
    #[inline]
    fn admits<L: Ledger>(&self, guard: u16, args: &Args, steps: &mut Steps<L>) -> bool {
        match self.native_guard(guard) {
            None => holds(self.test_of(guard), args, steps),
            Some(native) => {
                steps.tick();
                self.natives.admits(native, args)
            }
        }
    }
}
