//! The bindings of an event in the order in which they run.

ghost use Rattle.std.specs.Prelude.{◌≡◌, ◌==◌, ◌+◌, ◌≤◌, ◌<◌, ◌^◌, length, slice_get, Some, None, OnOk};
ghost use Rattle.std.specs.Prelude.{IfOk, IfSome, IsSomeAnd, sum_by, nat_le, if◌then◌else◌};
ghost use Rattle.std.specs.List.{All, find};
ghost use Rattle.std.specs.Option.{option_map};
ghost use Rattle.std.specs.List.Sorted.{IsNonDecreasing};
ghost use Rattle.spin_plan.specs.Next.{IsNext, IsGuard, guard_holds, guards_hold};
ghost use Rattle.spin_plan.specs.Keys as specs;
ghost use Rattle.spin_plan.specs.Keys.{guards_in, candidates};
ghost use Rattle.spin_plan.specs.Planned.{IsOver, expr_of, key_value, positions_under, least};

use crate::index::{Keyed, at_constant, file, first_of_both};
use crate::key::key_of;
use crate::read::Read;
use crate::reads::required_of;
use spin_code::Guards;
use spin_place::Binding;
use spin_values::{Args, NoMemory, Sequence, Steps};
use spin_word::Mode;
use std::alloc::Global;
use std::collections::BTreeMap;
use std::marker::Model;
use std::sync::ledger::Ledger;

/// Bindings in the order in which they run, counted from 0, and an index over what their guards require.
///
/// Contracts see the list of the bindings, and the index beside it.
#[derive(Drop, Debug)]
pub struct Plan {
    bindings: Sequence<Binding>,
    key: Option<Read>,
    keyed: Keyed,
    free: Sequence<u32>,
}

impl Model for Plan {
    ghost use Rattle.std.specs.Prelude.{List, length, ◌<◌, ◌^◌};
    ghost use Rattle.std.specs.Coded.{codes};
    ghost use Rattle.spin_code.specs.contracts.expr.Expr as expr;
    ghost use Rattle.std.specs.Option.{option_map};
    ghost use Rattle.spin_plan.specs.Planned.{Planned, expr_of};

    ghost Value = { Planned };

    ghost coded = { Prim.hlevel (codes, expr.the_row.coded) };

    ghost view = { λ p.
        record { bindings = p.bindings; key = option_map expr_of p.key; keyed = p.keyed.entries; free = p.free } };

    ghost invariant = { λ p. length p.bindings < 2 ^ 32 };
}

// Whether the guard's test holds: 0 is no guard and always holds.
#[inline]
fn admits<C: Guards, L: Ledger>(guards: &C, guard: u16, args: &Args, steps: &mut Steps<L>) -> bool
    requires there { IsGuard (length (C.tests guards.now)) guard }
    requires sincere { C.sincere guards.now }
    requires counter { C.counts guards.now L.name }
    ensures holds { result ≡ guard_holds (C.tests guards.now) args.now guard }
    ensures steps { steps.new ≤ steps.old + (if guard == 0 then 0 else 1) }
{
    guard == 0 || guards.admits(guard, args, steps)
}

// Whether the binding's own guard and all its imposed guards hold. None is asked after one that doesn't hold.
#[inline]
fn admits_all<C: Guards, L: Ledger>(
    guards: &C,
    binding: &Binding,
    args: &Args,
    steps: &mut Steps<L>,
) -> bool
    requires own { IsGuard (length (C.tests guards.now)) binding.now.own_guard }
    requires imposed { All (IsGuard (length (C.tests guards.now))) binding.now.imposed }
    requires sincere { C.sincere guards.now }
    requires counter { C.counts guards.now L.name }
    ensures holds { result ≡ guards_hold (C.tests guards.now) args.now binding.now }
    ensures steps { steps.new ≤ steps.old + guards_in binding.now }
{
    if !admits(guards, binding.own_guard, args, steps) {
        return false;
    }
    for guard in binding.imposed.as_slice() {
        if !admits(guards, *guard, args, steps) {
            return false;
        }
    }
    true
}

// What a binding requires for the key, if there is one.
fn wanted<C: Guards>(guards: &C, binding: &Binding, key: &Option<Read>) -> Option<u64>
    requires own { IsGuard (length (C.tests guards.now)) binding.now.own_guard }
    requires imposed { All (IsGuard (length (C.tests guards.now))) binding.now.imposed }
    ensures { result ≡ specs.wanted (C.tests guards.now) (option_map expr_of key.now) binding.now }
{
    match key {
        None => None,
        Some(read) => required_of(guards, binding, &read.expr()),
    }
}

impl Plan {
    /// The plan of these bindings, in this order, whose guards are all there: that of these guards alone.
    ///
    /// It counts one step for each binding, and no more before want of memory. It takes memory linear in the bindings
    /// and what their guards require, and time linear in the bindings times logarithmic in their number. What one
    /// binding's guards require is made each-once by looking through that binding's own, of which there are few.
    pub fn compile<C: Guards, L: Ledger>(
        alloc: Global,
        ordered: &[Binding],
        guards: &C,
        steps: &mut Steps<L>,
    ) -> Result<Plan, NoMemory>
        requires few { length ordered.now < 2 ^ 32 }
        requires own { All (λ b. IsGuard (length (C.tests guards.now)) b.own_guard) ordered.now }
        requires imposed { All (λ b. All (IsGuard (length (C.tests guards.now))) b.imposed)
            ordered.now }
        ensures plan { IfOk result (λ plan. plan.bindings ≡ ordered.now) }
        ensures over { IfOk result (λ plan. IsOver (C.tests guards.now) plan) }
        ensures steps { OnOk result (steps.new ≡ steps.old + length ordered.now) }
        ensures no_more { steps.new ≤ steps.old + length ordered.now }
    {
        let key = key_of(alloc, guards, ordered)?;
        let mut bindings = Sequence::new(alloc);
        let mut keyed = BTreeMap::new(alloc);
        let mut free = Sequence::new(alloc);
        for binding in ordered {
            steps.tick();
            let wanted = wanted(guards, binding, &key);
            file(alloc, &mut keyed, &mut free, wanted, bindings.len() as u32)?;
            bindings.push(binding.copy()?)?;
        }
        Ok(Plan {
            bindings,
            key,
            keyed,
            free,
        })
    }

    /// How many bindings there are.
    pub fn len(&self) -> u32
        ensures { result ≡ length self.now.bindings }
    {
        self.bindings.len() as u32
    }

    /// Whether there is no binding.
    pub fn is_empty(&self) -> bool
        ensures { result ≡ (length self.now.bindings == 0) }
    {
        self.bindings.is_empty()
    }

    /// The binding at a position that is there.
    #[inline]
    pub fn binding(&self, at: u32) -> &Binding
        requires { at < length self.now.bindings }
        ensures { slice_get self.now.bindings at ≡ Some result.now }
    {
        self.bindings.get(at as usize)
    }

    /// The number of the binding at a position that is there.
    pub fn number(&self, at: u32) -> u16
        requires { at < length self.now.bindings }
        ensures { IsSomeAnd (slice_get self.now.bindings at) (λ b. result ≡ b.number) }
    {
        self.binding(at).number
    }

    /// The handler of the binding at a position that is there.
    pub fn handler(&self, at: u32) -> u16
        requires { at < length self.now.bindings }
        ensures { IsSomeAnd (slice_get self.now.bindings at) (λ b. result ≡ b.handler) }
    {
        self.binding(at).handler
    }

    /// How the handler of the binding at a position that is there runs.
    pub fn mode(&self, at: u32) -> Mode
        requires { at < length self.now.bindings }
        ensures { IsSomeAnd (slice_get self.now.bindings at) (λ b. result ≡ b.mode) }
    {
        self.binding(at).mode
    }

    // The positions of the bindings that require the key's value on these arguments.
    #[inline]
    fn keyed_at(&self, args: &Args) -> &[u32]
        ensures { result.now
            ≡ positions_under self.now.keyed (key_value self.now.key args.now) }
    {
        match &self.key {
            None => &[],
            Some(read) => at_constant(&self.keyed, read.value(args)),
        }
    }

    // The first position at or after `from` in this list or of a binding that requires no constant for the key.
    #[inline]
    fn next_candidate(&self, keyed: &[u32], from: u32) -> Option<u32>
        requires free { IsNonDecreasing self.now.free }
        requires keyed { IsNonDecreasing keyed.now }
        ensures least { result ≡ least (find (nat_le from) self.now.free) (find (nat_le from) keyed.now) }
        ensures small { length self.now.bindings < 2 ^ 32 }
    {
        first_of_both(self.free.as_slice(), keyed, from)
    }

    // The next position where the plan has no key, so that each binding is a candidate in its turn.
    #[inline(always)]
    fn next_in_turn<C: Guards, L: Ledger>(
        &self,
        from: u32,
        args: &Args,
        guards: &C,
        steps: &mut Steps<L>,
    ) -> Option<u32>
        requires own { All (λ b. IsGuard (length (C.tests guards.now)) b.own_guard) self.now.bindings }
        requires imposed { All (λ b. All (IsGuard (length (C.tests guards.now))) b.imposed)
            self.now.bindings }
        requires sincere { C.sincere guards.now }
        requires counter { C.counts guards.now L.name }
        ensures next { IsNext (guards_hold (C.tests guards.now) args.now) self.now.bindings from result }
        ensures within { IfSome result (λ at. at < length self.now.bindings) }
        ensures small { IfSome result (λ at. at + 1 < 2 ^ 32) }
        ensures steps { steps.new
            ≤ steps.old + sum_by guards_in
            (candidates (C.tests guards.now) None args.now self.now.bindings from result) }
    {
        let mut at = from;
        'turns: while at < self.len() {
            if admits_all(guards, self.binding(at), args, steps) {
                return Some(at);
            }
            at += 1;
        }
        None
    }

    // The next position by the index.
    fn next_by_index<C: Guards, L: Ledger>(
        &self,
        from: u32,
        args: &Args,
        guards: &C,
        steps: &mut Steps<L>,
    ) -> Option<u32>
        requires own { All (λ b. IsGuard (length (C.tests guards.now)) b.own_guard) self.now.bindings }
        requires imposed { All (λ b. All (IsGuard (length (C.tests guards.now))) b.imposed)
            self.now.bindings }
        requires over { IsOver (C.tests guards.now) self.now }
        requires sincere { C.sincere guards.now }
        requires counter { C.counts guards.now L.name }
        ensures next { IsNext (guards_hold (C.tests guards.now) args.now) self.now.bindings from result }
        ensures within { IfSome result (λ at. at < length self.now.bindings) }
        ensures small { IfSome result (λ at. at + 1 < 2 ^ 32) }
        ensures steps { steps.new
            ≤ steps.old + sum_by guards_in
            (candidates (C.tests guards.now) self.now.key args.now self.now.bindings from result) }
    {
        let keyed = self.keyed_at(args);
        let mut at = from;
        'candidates: while let Some(candidate) = self.next_candidate(keyed, at) {
            if admits_all(guards, self.binding(candidate), args, steps) {
                return Some(candidate);
            }
            at = candidate + 1;
        }
        None
    }

    /// The least position at or after `from` whose own guard and imposed guards all hold of these arguments; `None`
    /// exactly where there is none. The guards are those over which the plan was compiled.
    ///
    /// It takes no memory, and looks into the index only where there is a key and a binding is left. It asks the guards
    /// of candidates alone, each candidate's in their order, its own guard first, until one doesn't hold. A candidate
    /// requires no constant for the key, or requires the key's value; where there is no key each binding is one.
    #[inline]
    pub fn next<C: Guards, L: Ledger>(
        &self,
        from: u32,
        args: &Args,
        guards: &C,
        steps: &mut Steps<L>,
    ) -> Option<u32>
        requires own { All (λ b. IsGuard (length (C.tests guards.now)) b.own_guard) self.now.bindings }
        requires imposed { All (λ b. All (IsGuard (length (C.tests guards.now))) b.imposed)
            self.now.bindings }
        requires over { IsOver (C.tests guards.now) self.now }
        requires sincere { C.sincere guards.now }
        requires counter { C.counts guards.now L.name }
        ensures next { IsNext (guards_hold (C.tests guards.now) args.now) self.now.bindings from result }
        ensures within { IfSome result (λ at. at < length self.now.bindings) }
        ensures small { IfSome result (λ at. at + 1 < 2 ^ 32) }
        ensures steps { steps.new
            ≤ steps.old + sum_by guards_in
            (candidates (C.tests guards.now) self.now.key args.now self.now.bindings from result) }
    {
        match &self.key {
            None => self.next_in_turn(from, args, guards, steps),
            Some(_) => {
                if from >= self.len() {
                    return None;
                }
                self.next_by_index(from, args, guards, steps)
            }
        }
    }
}
