//! A raise of one event, handler by handler.

ghost use Rattle.std.specs.Prelude.{◌≡◌, ◌+◌, ◌-◌, ◌<◌, ◌≤◌, ◌^◌, ◌++◌, ◌∷◌, length};
ghost use Rattle.std.specs.Prelude.{slice_get, OnOk, IfOk, IfSome, Some};
ghost use Rattle.std.specs.List.{All};
ghost use Rattle.spin_plan.specs.Next.{IsNext, IsGuard, guards_hold};
ghost use Rattle.spin_plan.specs.Planned.{IsOver};
ghost use Rattle.spin_objects.specs.Doing.{items_of, args_after, last_result};
ghost use Rattle.spin_objects.specs.Units.{acts_of, tests_of};
ghost use Rattle.spin_raise.specs.Firing.{units_of, steps_at, firing_of, IsThere, as_found};
ghost use Rattle.spin_raise.specs.Firing.{items_by, left_by, merged_by, one_if};
ghost use Rattle.spin_raise.specs.Firing as firing;
ghost use Rattle.spin_raise.specs.Progress.{IsStep, to_come};

use crate::answer::Answer;
use crate::bound::{Bound, Runner};
use crate::merging::{after_result, default_next, last_of};
use spin_code::Sincere;
use spin_objects::{Catalogue, Item, Outcome};
use spin_place::Binding;
use spin_plan::Plan;
use spin_values::{Args, NoMemory, Steps};
use spin_word::Mode;
use std::alloc::Global;
use std::marker::Brand;
use std::sync::ledger::{Blank, Ledger};

/// How far a raise has come.
#[derive(Drop, Debug)]
pub struct Progress {
    /// The position from which bindings are still to be tried.
    pub from: u32,
    /// The answer so far: `NoHandler` where none ran.
    pub answer: Answer,
    /// The arguments as they stand.
    pub args: Args,
}

/// What one step of a raise did.
#[derive(Clone, Copy, PartialEq, Eq, Debug)]
pub enum Stepped {
    /// A handler ran, or was left to a job.
    Ran,
    /// Nothing is left to run, and the answer so far is that of the raise.
    End,
    /// A handler is next, and there is no room for it.
    Full,
}

impl Progress {
    /// Nothing has fired yet, and these are the arguments.
    #[inline]
    pub fn start(args: Args) -> Progress
        ensures from { result.from ≡ 0 }
        ensures answer { result.answer ≡ Answer.NoHandler }
        ensures args { result.args ≡ args }
    {
        Progress {
            from: 0,
            answer: Answer::NoHandler,
            args,
        }
    }
}

/// Does a handler's act under the number of a binding, 0 being the default: appends the number and then what the act
/// gives, changes the arguments, and answers the act's result. It is linear in the act and what it gives.
#[inline]
pub fn run_handler(
    alloc: Global,
    cat: &Catalogue,
    handler: u16,
    number: u16,
    args: &mut Args,
    out: &mut Outcome,
) -> Result<Option<u64>, NoMemory>
    requires first { 0 < handler }
    requires last { handler ≤ length (acts_of cat.now) }
    requires sincere { ⟦<Catalogue as Sincere>⟧.sincere cat.now }
    ensures result { let given = items_of (steps_at (units_of cat.now) handler) args.old in
        IfOk result (λ r. r ≡ last_result given) }
    ensures out { let given = items_of (steps_at (units_of cat.now) handler) args.old in
        OnOk result (out.new ≡ out.old ++ (Item.Ran number ∷ given)) }
    ensures args { OnOk result (args.new ≡ args_after (steps_at (units_of cat.now) handler) args.old) }
{
    out.push(Item::Ran(number))?;
    let before = out.len();
    cat.run(alloc, handler, args, out)?;
    Ok(last_of(&out.as_slice()[before..]))
}

// The next position whose binding fires, with this counter.
#[inline]
fn next_counted<L: Ledger>(
    cat: &Catalogue,
    plan: &Plan,
    from: u32,
    args: &Args,
    blank: Blank,
) -> Option<u32>
    requires own { All (λ b. IsGuard (length (tests_of cat.now)) b.own_guard) plan.now.bindings }
    requires imposed { All (λ b. All (IsGuard (length (tests_of cat.now))) b.imposed) plan.now.bindings }
    requires over { IsOver (tests_of cat.now) plan.now }
    requires sincere { ⟦<Catalogue as Sincere>⟧.sincere cat.now }
    requires name { blank.name ≡ L.name }
    requires parts { blank.parts ≡ L.parts }
    requires some { 0 < L.parts }
    ensures next { IsNext (guards_hold (tests_of cat.now) args.now) plan.now.bindings from result }
    ensures within { IfSome result (λ at. at < length plan.now.bindings) }
    ensures small { IfSome result (λ at. at + 1 < 2 ^ 32) }
{
    let mut steps = Steps::<L>::new(blank);
    plan.next(from, args, cat, &mut steps)
}

/// The next position, from this one on, whose binding's guards all hold of these arguments, and `None` where no
/// further one is there. Its cost is that of [`Plan::next`].
#[inline]
pub fn next_firing(cat: &Catalogue, plan: &Plan, from: u32, args: &Args) -> Option<u32>
    requires own { All (λ b. IsGuard (length (tests_of cat.now)) b.own_guard) plan.now.bindings }
    requires imposed { All (λ b. All (IsGuard (length (tests_of cat.now))) b.imposed) plan.now.bindings }
    requires over { IsOver (tests_of cat.now) plan.now }
    requires sincere { ⟦<Catalogue as Sincere>⟧.sincere cat.now }
    ensures next { IsNext (guards_hold (tests_of cat.now) args.now) plan.now.bindings from result }
    ensures within { IfSome result (λ at. at < length plan.now.bindings) }
    ensures small { IfSome result (λ at. at + 1 < 2 ^ 32) }
{
    next_counted::<Brand>(cat, plan, from, args, Blank::new(1))
}

#[inline]
fn is_async(mode: Mode) -> bool
    ensures { result ≡ firing.is_async mode }
{
    matches!(mode, Mode::Async)
}

/// Does the act of a binding that fires, and answers the result that is merged, if there is one. An asynchronous one
/// is left to a job with a copy of the arguments, or is done in place where the raise is itself a job. It appends what
/// the act gives behind the binding's number, or the job. It is linear in the act and what it gives, and where it
/// leaves a job in the arguments.
#[inline]
pub fn fire(
    alloc: Global,
    cat: &Catalogue,
    binding: &Binding,
    runner: Runner,
    args: &mut Args,
    out: &mut Outcome,
) -> Result<Option<u64>, NoMemory>
    requires first { 0 < binding.now.handler }
    requires last { binding.now.handler ≤ length (acts_of cat.now) }
    requires sincere { ⟦<Catalogue as Sincere>⟧.sincere cat.now }
    ensures merged { let fired = firing_of runner (units_of cat.now) binding.now args.old in
        IfOk result (λ word. merged_by fired ≡ one_if word) }
    ensures out { let fired = firing_of runner (units_of cat.now) binding.now args.old in
        OnOk result (out.new ≡ out.old ++ items_by fired) }
    ensures args { let fired = firing_of runner (units_of cat.now) binding.now args.old in
        OnOk result (args.new ≡ left_by fired) }
{
    if is_async(binding.mode) {
        if runner.leaves_jobs() {
            let copy = args.copy()?;
            out.push(Item::Job {
                number: binding.number,
                args: copy,
            })?;
            return Ok(None);
        }
        run_handler(alloc, cat, binding.handler, binding.number, args, out)?;
        return Ok(None);
    }
    run_handler(alloc, cat, binding.handler, binding.number, args, out)
}

/// Runs what is next in a raise: the next binding whose guards all hold of the arguments as they stand, or the
/// default where no binding ran. Where there is no room, nothing is run and nothing changes.
///
/// Beside the guards that it tests, it is linear in the act and what it gives.
#[inline]
pub fn step(
    alloc: Global,
    cat: &Catalogue,
    bound: &Bound<'_>,
    runner: Runner,
    room: bool,
    progress: &mut Progress,
    out: &mut Outcome,
) -> Result<Stepped, NoMemory>
    requires there { IsThere (units_of cat.now) (as_found bound.now) }
    requires over { IsOver (tests_of cat.now) bound.now.plan.now }
    requires sincere { ⟦<Catalogue as Sincere>⟧.sincere cat.now }
    ensures { let before = to_come runner (units_of cat.now) (as_found bound.now) progress.old in
        let after = to_come runner (units_of cat.now) (as_found bound.now) progress.new in
        IfOk result (λ stepped.
        IsStep bound.now.merge.now room stepped before after
        progress.old progress.new out.old out.new) }
{
    match next_firing(cat, bound.plan, progress.from, &progress.args) {
        Some(at) => {
            let binding = bound.plan.binding(at);
            if !room {
                return Ok(Stepped::Full);
            }
            let word = fire(alloc, cat, binding, runner, &mut progress.args, out)?;
            progress.answer = after_result(alloc, bound.merge, progress.answer, word)?;
            progress.from = at + 1;
            Ok(Stepped::Ran)
        }
        None => {
            let handler = default_next(progress.answer, bound.default);
            if handler == 0 {
                return Ok(Stepped::End);
            }
            if !room {
                return Ok(Stepped::Full);
            }
            let word = run_handler(alloc, cat, handler, 0, &mut progress.args, out)?;
            progress.answer = Answer::Default(word);
            progress.from = bound.plan.len();
            Ok(Stepped::Ran)
        }
    }
}
