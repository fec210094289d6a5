//! A whole raise of one event.

ghost use Rattle.std.specs.Prelude.{◌≡◌, ◌++◌, OnOk, IfOk};
ghost use Rattle.std.specs.List.{flat_map};
ghost use Rattle.spin_plan.specs.Planned.{IsOver};
ghost use Rattle.spin_objects.specs.Units.{tests_of};
ghost use Rattle.spin_raise.specs.Firing.{units_of, bound_of, runner_of, IsThere, fired};
ghost use Rattle.spin_raise.specs.Firing.{items_by, answer_of, args_left};

use crate::answer::Answer;
use crate::bound::{Bound, Runner};
use crate::stepping::{Progress, Stepped, step};
use spin_code::{Merge, Sincere};
use spin_objects::{Catalogue, Outcome};
use spin_plan::Plan;
use spin_values::{Args, NoMemory};
use std::alloc::Global;
use std::mem;

/// Raises an event: goes along the plan, and runs each binding whose guards all hold of the arguments as they stand
/// when it is reached.
///
/// A binding that runs appends its number and then what its act gives, and leaves the arguments as the act does. An
/// asynchronous one, where `apart` is false, appends a job with a copy of the arguments instead, and they go on
/// unchanged; where `apart` is true it runs in place, and its result isn't merged. Where no binding ran, the default
/// runs under the number 0, unless it is 0 itself.
///
/// The answer is [`Answer::Value`] where a result was merged, by `merge` in the order of the bindings;
/// [`Answer::Done`] where bindings ran and none gave a result that is merged; [`Answer::Default`] with the default's
/// result where it ran; and [`Answer::NoHandler`] where nothing ran.
///
/// The handlers and guards that plan and default name are there, the plan was compiled over these guards, and the
/// catalogue's objects do what they were handed in with. After want of memory nothing is known of the arguments and
/// the outcome. It is linear in the bindings that may fire, their guards, and what the acts do and give; the arguments
/// are copied for jobs alone.
///
/// It is for a host that has one event and follows no raise upwards by itself: such raises stand in the outcome.
/// A whole raise, with those that it makes upwards, goes along the same plan by [`step`].
pub fn raise(
    alloc: Global,
    plan: &Plan,
    merge: &Merge,
    default: u16,
    cat: &Catalogue,
    apart: bool,
    args: &mut Args,
    out: &mut Outcome,
) -> Result<Answer, NoMemory>
    requires there { IsThere (units_of cat.now) (bound_of plan.now.bindings merge.now default) }
    requires over { IsOver (tests_of cat.now) plan.now }
    requires sincere { ⟦<Catalogue as Sincere>⟧.sincere cat.now }
    ensures answer { let event = bound_of plan.now.bindings merge.now default in
        let all = fired (runner_of apart) (units_of cat.now) event args.old in
        IfOk result (λ a. a ≡ answer_of merge.now all) }
    ensures out { let event = bound_of plan.now.bindings merge.now default in
        let all = fired (runner_of apart) (units_of cat.now) event args.old in
        OnOk result (out.new ≡ out.old ++ flat_map items_by all) }
    ensures args { let event = bound_of plan.now.bindings merge.now default in
        let all = fired (runner_of apart) (units_of cat.now) event args.old in
        OnOk result (args.new ≡ args_left args.old all) }
{
    let bound = Bound {
        plan,
        merge,
        default,
    };
    let runner = Runner::of(apart);
    let mut progress = Progress::start(mem::replace(args, Args::new(alloc)));
    'turns: loop {
        match step(alloc, cat, &bound, runner, true, &mut progress, out)? {
            Stepped::Ran => {}
            Stepped::End => {
                let Progress {
                    answer,
                    args: left,
                    ..
                } = progress;
                *args = left;
                return Ok(answer);
            }
            Stepped::Full => unreachable!(),
        }
    }
}
