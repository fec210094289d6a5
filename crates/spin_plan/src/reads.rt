//! What the guards of bindings require to be constants.

ghost use Rattle.std.specs.Prelude.{◌≡◌, ◌≤◌, length, fold, OnOk, IfOk};
ghost use Rattle.std.specs.List.{All, flat_map};
ghost use Rattle.spin_plan.specs.Next.{IsGuard};
ghost use Rattle.spin_plan.specs.Keys.{guard_requires, binding_requires};
ghost use Rattle.spin_plan.specs.Inner.Reads.{reads_beside, reads_of, guard_reads, has_read, with_read, binding_reads};

use crate::read::read_of;
use spin_code::{Cmp, Expr, Guards, Test, is_same_read, required};
use spin_place::Binding;
use spin_values::{NoMemory, Sequence};
use std::alloc::Global;

// Arguments, and fields of arguments.
pub(crate) type Reads = Sequence<Expr>;

// Whether the list has the same argument or field.
fn has_read(reads: &[Expr], e: &Expr) -> bool
    ensures { result ≡ has_read reads.now e.now }
{
    reads.iter().any(|d| is_same_read(d, e))
}

// Adds what stands beside a constant, if it is an argument or a field and isn't there yet.
fn note(reads: &mut Reads, side: &Expr, other: &Expr) -> Result<(), NoMemory>
    ensures { OnOk result (reads.new ≡ fold with_read reads.old (reads_beside side.now other.now)) }
{
    if !matches!(other, Expr::Const(_)) || has_read(reads.as_slice(), side) {
        return Ok(());
    }
    match read_of(side) {
        Some(read) => reads.push(read.expr()),
        None => Ok(()),
    }
}

// Adds what a test requires to be constants and isn't there yet.
fn note_test(reads: &mut Reads, t: &Test) -> Result<(), NoMemory>
    ensures { OnOk result (reads.new ≡ fold with_read reads.old (reads_of t.now)) }
{
    match t {
        Test::Compare(Cmp::Eq, a, b) => {
            note(reads, a, b)?;
            note(reads, b, a)
        }
        Test::All(a, b) => {
            note_test(reads, a)?;
            note_test(reads, b)
        }
        _ => Ok(()),
    }
}

// Adds what the test of a guard requires to be constants and isn't there yet; 0 is no guard.
fn note_guard<C: Guards>(reads: &mut Reads, guards: &C, guard: u16) -> Result<(), NoMemory>
    requires there { IsGuard (length (C.tests guards.now)) guard }
    ensures { OnOk result
        (reads.new ≡ fold with_read reads.old (guard_reads (C.tests guards.now) guard)) }
{
    if guard == 0 {
        return Ok(());
    }
    note_test(reads, guards.test_of(guard))
}

// What the guards of a binding require to be constants, each once.
pub(crate) fn reads_of<C: Guards>(
    alloc: Global,
    guards: &C,
    binding: &Binding,
) -> Result<Reads, NoMemory>
    requires own { IsGuard (length (C.tests guards.now)) binding.now.own_guard }
    requires imposed { All (IsGuard (length (C.tests guards.now))) binding.now.imposed }
    ensures { IfOk result (λ reads. reads ≡ binding_reads (C.tests guards.now) binding.now) }
{
    let mut reads = Sequence::new(alloc);
    note_guard(&mut reads, guards, binding.own_guard)?;
    for guard in binding.imposed.as_slice() {
        note_guard(&mut reads, guards, *guard)?;
    }
    Ok(reads)
}

// The constant that a guard requires; 0 is no guard.
fn required_of_guard<C: Guards>(guards: &C, guard: u16, e: &Expr) -> Option<u64>
    requires there { IsGuard (length (C.tests guards.now)) guard }
    ensures { result ≡ guard_requires (C.tests guards.now) e.now guard }
{
    if guard == 0 {
        return None;
    }
    required(guards.test_of(guard), e)
}

// The constant that a binding requires: the first one that its guards do, its own guard first.
pub(crate) fn required_of<C: Guards>(guards: &C, binding: &Binding, e: &Expr) -> Option<u64>
    requires own { IsGuard (length (C.tests guards.now)) binding.now.own_guard }
    requires imposed { All (IsGuard (length (C.tests guards.now))) binding.now.imposed }
    ensures { result ≡ binding_requires (C.tests guards.now) e.now binding.now }
{
    let own = required_of_guard(guards, binding.own_guard, e);
    if own.is_some() {
        return own;
    }
    for guard in binding.imposed.as_slice() {
        let imposed = required_of_guard(guards, *guard, e);
        if imposed.is_some() {
            return imposed;
        }
    }
    None
}
