//! One turn of a raise: the next handler that runs is done, and what it gives is noted at once.

ghost use Rattle.std.specs.Prelude.{◌≡◌, ◌<◌, ◌≤◌, [], length, fold, true, OnOk, IfOk, nat_lt};
ghost use Rattle.spin_plan.specs.Planned.{IsOver};
ghost use Rattle.spin_objects.specs.Doing.{items_of, args_after, result_after};
ghost use Rattle.spin_objects.specs.Units.{acts_of, tests_of};
ghost use Rattle.spin_raise.specs.Firing.{units_of, steps_at, firing_of, IsThere, as_found, Did};
ghost use Rattle.spin_raise.specs.Firing as firing;
ghost use Rattle.spin_raise.specs.Progress.{to_come};
ghost use Rattle.spin_proto.specs.Inner.Turns.{IsStepNoted, IsNoted, IsTurn};

use crate::noting::{note_given, note_item, note_items, result_after};
use crate::reply::Step;
use crate::walk::{Upward, Walk};
use spin_code::{Act, ActStep, Sincere, value};
use spin_objects::{Catalogue, Item, Outcome, run_step};
use spin_place::Binding;
use spin_raise::{
    Answer, Bound, Progress, Runner, Stepped, after_result, default_next, fire, next_firing,
};
use spin_values::{Args, NoMemory, Sequence};
use spin_word::Mode;
use std::alloc::Global;

// Does one step of an act, and notes what it gives. Answers the act's result so far; `None` where too many handlers
// start.
#[inline(never)]
fn note_step(
    alloc: Global,
    step: &ActStep,
    event: u8,
    last: Option<u64>,
    args: &mut Args,
    walk: &mut Walk,
    ups: &mut Sequence<Upward>,
) -> Result<Option<Option<u64>>, NoMemory>
    ensures { IfOk result (λ done.
        IsStepNoted done step.now event last args.old args.new ups.old ups.new walk.old walk.new) }
{
    let Some(item) = run_step(alloc, step, args)? else {
        return Ok(Some(last));
    };
    let word = result_after(last, &item);
    if !note_item(walk, event, item, ups)? {
        return Ok(None);
    }
    Ok(Some(word))
}

// The same, at once where the step gives a result: most acts are a word or two.
#[inline(always)]
fn note_next(
    alloc: Global,
    step: &ActStep,
    event: u8,
    last: Option<u64>,
    args: &mut Args,
    walk: &mut Walk,
    ups: &mut Sequence<Upward>,
) -> Result<Option<Option<u64>>, NoMemory>
    ensures { IfOk result (λ done.
        IsStepNoted done step.now event last args.old args.new ups.old ups.new walk.old walk.new) }
{
    match step {
        ActStep::Result(e) => {
            let word = value(e, args);
            walk.note(Step::Result(word))?;
            Ok(Some(Some(word)))
        }
        _ => note_step(alloc, step, event, last, args, walk, ups),
    }
}

// Does an act under the number of a binding, and notes each step as it is done. Answers the act's result; `None` where
// too many handlers start.
#[inline(always)]
fn note_act(
    alloc: Global,
    act: &Act,
    event: u8,
    number: u16,
    args: &mut Args,
    walk: &mut Walk,
    ups: &mut Sequence<Upward>,
) -> Result<Option<Option<u64>>, NoMemory>
    requires { ups.old ≡ [] }
    ensures { IfOk result (λ done.
        let act = Did number true (items_of act.now.steps args.old) (args_after act.now.steps args.old) in
        IsNoted done event act args.new ups.new walk.old walk.new) }
{
    if !walk.start(event, number)? {
        return Ok(None);
    }
    let mut last = None;
    for step in act.steps.as_slice() {
        match note_next(alloc, step, event, last, args, walk, ups)? {
            Some(word) => last = word,
            None => return Ok(None),
        }
    }
    Ok(Some(last))
}

// Does a handler's act under the number of a binding by its object, and then notes what it gave.
#[inline(always)]
fn note_native(
    alloc: Global,
    cat: &Catalogue,
    handler: u16,
    number: u16,
    event: u8,
    args: &mut Args,
    given: &mut Outcome,
    walk: &mut Walk,
    ups: &mut Sequence<Upward>,
) -> Result<Option<Option<u64>>, NoMemory>
    requires first { 0 < handler }
    requires last { handler ≤ length (acts_of cat.now) }
    requires sincere { ⟦<Catalogue as Sincere>⟧.sincere cat.now }
    ensures { IfOk result (λ done.
        let steps = steps_at (units_of cat.now) handler in
        let act = Did number true (items_of steps args.old) (args_after steps args.old) in
        IsNoted done event act args.new ups.new walk.old walk.new) }
{
    if !walk.start(event, number)? {
        return Ok(None);
    }
    given.clear();
    cat.run(alloc, handler, args, given)?;
    note_given(walk, event, given, ups)
}

// Does the default's act, and notes what it gives. A raise has one default at most, so this is a call of its own, and the
// way along the bindings stays short.
#[inline(never)]
fn note_default(
    alloc: Global,
    cat: &Catalogue,
    handler: u16,
    event: u8,
    args: &mut Args,
    given: &mut Outcome,
    walk: &mut Walk,
    ups: &mut Sequence<Upward>,
) -> Result<Option<Option<u64>>, NoMemory>
    requires first { 0 < handler }
    requires last { handler ≤ length (acts_of cat.now) }
    requires sincere { ⟦<Catalogue as Sincere>⟧.sincere cat.now }
    ensures { IfOk result (λ done.
        let steps = steps_at (units_of cat.now) handler in
        let act = Did 0 true (items_of steps args.old) (args_after steps args.old) in
        IsNoted done event act args.new ups.new walk.old walk.new) }
{
    note_native(alloc, cat, handler, 0, event, args, given, walk, ups)
}

// Does a handler's act under the number of a binding, and notes what it gives. Answers the act's result; `None` where
// too many handlers start.
#[inline(always)]
fn note_handler(
    alloc: Global,
    cat: &Catalogue,
    handler: u16,
    number: u16,
    event: u8,
    args: &mut Args,
    given: &mut Outcome,
    walk: &mut Walk,
    ups: &mut Sequence<Upward>,
) -> Result<Option<Option<u64>>, NoMemory>
    requires first { 0 < handler }
    requires last { handler ≤ length (acts_of cat.now) }
    requires sincere { ⟦<Catalogue as Sincere>⟧.sincere cat.now }
    requires none { ups.old ≡ [] }
    ensures { IfOk result (λ done.
        let steps = steps_at (units_of cat.now) handler in
        let act = Did number true (items_of steps args.old) (args_after steps args.old) in
        IsNoted done event act args.new ups.new walk.old walk.new) }
{
    match cat.native_handler(handler) {
        None => note_act(alloc, cat.act_of(handler), event, number, args, walk, ups),
        Some(_) => note_native(alloc, cat, handler, number, event, args, given, walk, ups),
    }
}

// Fires a binding that is asynchronous: it is left to a job, or done in place where the raise is itself a job.
#[inline(never)]
fn note_apart(
    alloc: Global,
    cat: &Catalogue,
    binding: &Binding,
    runner: Runner,
    event: u8,
    args: &mut Args,
    given: &mut Outcome,
    walk: &mut Walk,
    ups: &mut Sequence<Upward>,
) -> Result<Option<Option<u64>>, NoMemory>
    requires first { 0 < binding.now.handler }
    requires last { binding.now.handler ≤ length (acts_of cat.now) }
    requires sincere { ⟦<Catalogue as Sincere>⟧.sincere cat.now }
    ensures { IfOk result (λ done.
        let fired = firing_of runner (units_of cat.now) binding.now args.old in
        IsNoted done event fired args.new ups.new walk.old walk.new) }
{
    given.clear();
    let word = fire(alloc, cat, binding, runner, args, given)?;
    if !note_items(walk, event, given, ups)? {
        return Ok(None);
    }
    Ok(Some(word))
}

#[inline]
fn is_async(mode: Mode) -> bool
    ensures { result ≡ firing.is_async mode }
{
    matches!(mode, Mode::Async)
}

// Fires a binding, and notes what it gives. Answers the result that is merged; `None` where too many handlers start.
#[inline(always)]
fn note_binding(
    alloc: Global,
    cat: &Catalogue,
    binding: &Binding,
    runner: Runner,
    event: u8,
    args: &mut Args,
    given: &mut Outcome,
    walk: &mut Walk,
    ups: &mut Sequence<Upward>,
) -> Result<Option<Option<u64>>, NoMemory>
    requires first { 0 < binding.now.handler }
    requires last { binding.now.handler ≤ length (acts_of cat.now) }
    requires sincere { ⟦<Catalogue as Sincere>⟧.sincere cat.now }
    requires none { ups.old ≡ [] }
    ensures { IfOk result (λ done.
        let fired = firing_of runner (units_of cat.now) binding.now args.old in
        IsNoted done event fired args.new ups.new walk.old walk.new) }
{
    if is_async(binding.mode) {
        return note_apart(alloc, cat, binding, runner, event, args, given, walk, ups);
    }
    note_handler(
        alloc,
        cat,
        binding.handler,
        binding.number,
        event,
        args,
        given,
        walk,
        ups,
    )
}

// Does what is next in a raise, and notes what it gives: the next binding that fires, or the default where none did.
// Its raises upwards are put into the list, which was empty. `Full` is told where too many handlers start, and then
// nothing is known of what was noted.
#[inline(always)]
pub(crate) fn turn(
    alloc: Global,
    cat: &Catalogue,
    bound: &Bound<'_>,
    runner: Runner,
    event: u8,
    progress: &mut Progress,
    given: &mut Outcome,
    walk: &mut Walk,
    ups: &mut Sequence<Upward>,
) -> Result<Stepped, NoMemory>
    requires there { IsThere (units_of cat.now) (as_found bound.now) }
    requires over { IsOver (tests_of cat.now) bound.now.plan.now }
    requires sincere { ⟦<Catalogue as Sincere>⟧.sincere cat.now }
    requires none { ups.old ≡ [] }
    ensures { let before = to_come runner (units_of cat.now) (as_found bound.now) progress.old in
        let after = to_come runner (units_of cat.now) (as_found bound.now) progress.new in
        IfOk result (λ stepped. IsTurn bound.now.merge.now event stepped before after
        progress.old progress.new ups.new walk.old walk.new) }
{
    match next_firing(cat, bound.plan, progress.from, &progress.args) {
        Some(at) => {
            let binding = bound.plan.binding(at);
            if walk.left == 0 {
                return Ok(Stepped::Full);
            }
            let args = &mut progress.args;
            let Some(word) = note_binding(
                alloc, cat, binding, runner, event, args, given, walk, ups,
            )?
            else {
                return Ok(Stepped::Full);
            };
            progress.answer = after_result(alloc, bound.merge, progress.answer, word)?;
            progress.from = at + 1;
            Ok(Stepped::Ran)
        }
        None => {
            let handler = default_next(progress.answer, bound.default);
            if handler == 0 {
                return Ok(Stepped::End);
            }
            if walk.left == 0 {
                return Ok(Stepped::Full);
            }
            let args = &mut progress.args;
            let Some(word) = note_default(alloc, cat, handler, event, args, given, walk, ups)?
            else {
                return Ok(Stepped::Full);
            };
            progress.answer = Answer::Default(word);
            progress.from = bound.plan.len();
            Ok(Stepped::Ran)
        }
    }
}
