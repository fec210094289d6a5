//! One raise of one event, whose firings the host answers.

ghost use Rattle.std.specs.Prelude.{◌≡◌, ◌+◌, ◌<◌, ◌≤◌, ◌++◌, [], length, IsSome, IsSomeAnd, MatchOption};
ghost use Rattle.std.specs.Prelude.{is_some, OnOk, IfOk, IfErr, IfSome, None, Some, Err, slice_get};
ghost use Rattle.spin_plan.specs.Planned.{IsOver};
ghost use Rattle.spin_objects.specs.Units.{acts_of, tests_of};
ghost use Rattle.spin_values.specs.declared.types.EventType.{EventType as EventTypeData};
ghost use Rattle.spin_raise.specs.Firing.{Units, units_of, as_found, IsThere, items_by, left_by, merged_by, one_if};
ghost use Rattle.spin_raise.specs.Progress.{with_result};
ghost use Rattle.spin_host.specs.OpenRaises.{Fate, Done, Gave, Declined, Reached, gives};
ghost use Rattle.spin_host.specs.Frames as specs;
ghost use Rattle.spin_host.specs.Frames.{due_in, next_of, Begins, Tells, Stays, Ends, IsWithin, Finds, Looks};

use crate::firing::{AnswerFault, Firing};
use crate::gift::{Gift, gift_fault, run_gift, runs_apart};
use crate::spare::Spare;
use spin_code::Sincere;
use spin_objects::{Catalogue, Item, Outcome};
use spin_place::Binding;
use spin_plan::Plan;
use spin_raise::{
    Answer, Bound, Progress, Runner, after_result, default_next, fire, next_firing, run_handler,
};
use spin_values::{Args, EventType, NoMemory};
use spin_word::Mode;
use std::alloc::Global;

/// What was told and isn't answered.
#[derive(Clone, Copy, PartialEq, Eq, Debug)]
pub enum Due {
    /// The binding at a position.
    Binding(u32),
    /// The event's default.
    Default,
}

/// A raise of one event under way: how far it has come, what is due, and whether the default was told.
#[derive(Drop, Debug)]
pub struct Frame {
    pub(crate) event: u8,
    pub(crate) progress: Progress,
    pub(crate) due: Option<Due>,
    pub(crate) asked: bool,
}

// The position after one that is there.
#[inline]
fn position_after(plan: &Plan, at: u32) -> u32
    requires { at < length plan.now.bindings }
    ensures { result ≡ at + 1 }
{
    let all = plan.len();
    if at < all { at + 1 } else { all }
}

// Whether the default is next, where no binding is.
#[inline]
fn is_default_next(asked: bool, answer: Answer, default: u16) -> bool
    ensures { result ≡ specs.is_default_next asked answer default }
{
    !asked && default_next(answer, default) != 0
}

// What was given in the place of a binding's act fires: it is the last result that is merged, if there is one. One that
// runs apart is left to a job with a copy of the arguments.
fn fire_gift(
    binding: &Binding,
    gift: &mut Gift,
    args: &mut Args,
    out: &mut Outcome,
    spare: &mut Spare,
) -> Result<Option<u64>, NoMemory>
    ensures merged { IfOk result (λ word. merged_by (gives args.old gift.old (Reached 0 binding.now)) ≡ one_if word) }
    ensures out { OnOk result (out.new ≡ out.old ++ items_by (gives args.old gift.old (Reached 0 binding.now))) }
    ensures args { OnOk result (args.new ≡ left_by (gives args.old gift.old (Reached 0 binding.now))) }
    ensures gift { OnOk result (gift.new ≡ []) }
{
    if runs_apart(binding.mode) {
        let copy = args.copy()?;
        out.push(Item::Job {
            number: binding.number,
            args: copy,
        })?;
        gift.clear();
        return Ok(None);
    }
    run_gift(binding.number, gift, args, out, spare)
}

impl Frame {
    // A raise of an event on these arguments, in which nothing was told yet.
    pub(crate) fn begin(event: u8, args: Args) -> Frame
        ensures event { result.event ≡ event }
        ensures begins { Begins args result }
    {
        Frame {
            event,
            progress: Progress::start(args),
            due: None,
            asked: false,
        }
    }

    // What is due, where it is there.
    #[inline]
    fn due_there(&self, bound: &Bound<'_>) -> Option<Due>
        ensures due { MatchOption result (due_in (as_found bound.now) self.now ≡ None) (λ due.
            (self.now.due ≡ Some due) × IsSome (next_of (as_found bound.now) due)) }
        ensures within { IfSome result (IsWithin (as_found bound.now)) }
    {
        match self.due {
            None => None,
            Some(Due::Binding(at)) => {
                if at < bound.plan.len() {
                    Some(Due::Binding(at))
                } else {
                    None
                }
            }
            Some(Due::Default) => {
                if bound.default != 0 {
                    Some(Due::Default)
                } else {
                    None
                }
            }
        }
    }

    // What is next, which nobody was told yet.
    fn find(&self, cat: &Catalogue, bound: &Bound<'_>) -> Option<Due>
        requires there { IsThere (units_of cat.now) (as_found bound.now) }
        requires over { IsOver (tests_of cat.now) bound.now.plan.now }
        requires sincere { ⟦<Catalogue as Sincere>⟧.sincere cat.now }
        ensures finds { Finds (units_of cat.now) (as_found bound.now) self.now result }
        ensures within { IfSome result (IsWithin (as_found bound.now)) }
    {
        match next_firing(cat, bound.plan, self.progress.from, &self.progress.args) {
            Some(at) => Some(Due::Binding(at)),
            None => {
                if is_default_next(self.asked, self.progress.answer, bound.default) {
                    Some(Due::Default)
                } else {
                    None
                }
            }
        }
    }

    // Whether something is due.
    #[inline]
    pub(crate) fn is_due(&self, bound: &Bound<'_>) -> bool
        ensures { result ≡ is_some (due_in (as_found bound.now) self.now) }
    {
        self.due_there(bound).is_some()
    }

    // Lets go of what is due, as if it hadn't been told.
    pub(crate) fn forget(&mut self)
        ensures { self.new ≡ record self.old { due = None } }
    {
        self.due = None;
    }

    // What is due, and else what is next.
    fn look(&self, cat: &Catalogue, bound: &Bound<'_>) -> Option<Due>
        requires there { IsThere (units_of cat.now) (as_found bound.now) }
        requires over { IsOver (tests_of cat.now) bound.now.plan.now }
        requires sincere { ⟦<Catalogue as Sincere>⟧.sincere cat.now }
        ensures looks { Looks (units_of cat.now) (as_found bound.now) self.now result }
        ensures within { IfSome result (IsWithin (as_found bound.now)) }
    {
        match self.due_there(bound) {
            Some(due) => Some(due),
            None => self.find(cat, bound),
        }
    }

    // What is told of what is due.
    fn firing(&self, bound: &Bound<'_>, due: Due) -> Firing
        requires { IsWithin (as_found bound.now) due }
        ensures { IsSomeAnd (next_of (as_found bound.now) due) (λ next. result ≡ specs.firing_at self.now.event next) }
    {
        match due {
            Due::Binding(at) => {
                let binding = bound.plan.binding(at);
                Firing {
                    event: self.event,
                    number: binding.number,
                    handler: binding.handler,
                    mode: binding.mode,
                }
            }
            Due::Default => Firing {
                event: self.event,
                number: 0,
                handler: bound.default,
                mode: Mode::Plain,
            },
        }
    }

    // What is due, or else the next binding whose guards hold on the arguments as they stand, or else the default; `None`
    // where none is left, and the answer so far is that of the raise. Where something is due already no guard is tested.
    pub(crate) fn next(&mut self, cat: &Catalogue, bound: &Bound<'_>) -> Option<Firing>
        requires there { IsThere (units_of cat.now) (as_found bound.now) }
        requires over { IsOver (tests_of cat.now) bound.now.plan.now }
        requires sincere { ⟦<Catalogue as Sincere>⟧.sincere cat.now }
        ensures stays { Stays (units_of cat.now) (as_found bound.now) self.old self.new }
        ensures firing { MatchOption result
            ((due_in (as_found bound.now) self.new ≡ None)
            × Ends (units_of cat.now) (as_found bound.now) self.old self.new.progress.answer)
            (λ firing. IsSomeAnd (due_in (as_found bound.now) self.new) (λ next.
            firing ≡ specs.firing_at self.new.event next)) }
        ensures same { (self.new.event ≡ self.old.event) × (self.new.progress ≡ self.old.progress)
            × (self.new.asked ≡ self.old.asked) }
        ensures due { IfSome (due_in (as_found bound.now) self.old) (λ next.
            due_in (as_found bound.now) self.new ≡ Some next) }
    {
        self.due = self.look(cat, bound);
        match self.due {
            None => None,
            Some(due) => Some(self.firing(bound, due)),
        }
    }

    // The binding at a position was answered, and gave this result to the merge, if any.
    fn settle_binding(
        &mut self,
        alloc: Global,
        bound: &Bound<'_>,
        at: u32,
        word: Option<u64>,
    ) -> Result<(), NoMemory>
        requires { at < length bound.now.plan.now.bindings }
        ensures ok { OnOk result (self.new ≡ specs.binding_settled bound.now.merge.now at word self.old) }
        ensures event { self.new.event ≡ self.old.event }
    {
        let answer = after_result(alloc, bound.merge, self.progress.answer, word)?;
        self.progress.answer = answer;
        self.progress.from = position_after(bound.plan, at);
        self.due = None;
        Ok(())
    }

    // The default was answered, and gave this result, if any.
    fn settle_default(&mut self, bound: &Bound<'_>, word: Option<u64>)
        ensures { self.new ≡ specs.default_settled (as_found bound.now) word self.old }
    {
        self.progress.answer = Answer::Default(word);
        self.progress.from = bound.plan.len();
        self.asked = true;
        self.due = None;
    }

    // The host's own guard didn't hold: what is due runs no handler.
    pub(crate) fn declined(&mut self, bound: &Bound<'_>) -> Result<(), AnswerFault>
        ensures fault { MatchOption (due_in (as_found bound.now) self.old)
            ((result ≡ Err AnswerFault.NotDue) × (self.new ≡ self.old)) (λ _. IfErr result (λ _. ⊥)) }
        ensures told { OnOk result ((u : Units) (sig : EventTypeData) →
            Tells u sig (as_found bound.now) Declined self.old self.new [] []) }
        ensures event { self.new.event ≡ self.old.event }
        ensures args { self.new.progress.args ≡ self.old.progress.args }
        ensures answer { self.new.progress.answer ≡ self.old.progress.answer }
    {
        match self.due_there(bound) {
            None => Err(AnswerFault::NotDue),
            Some(Due::Binding(at)) => {
                self.progress.from = position_after(bound.plan, at);
                self.due = None;
                Ok(())
            }
            Some(Due::Default) => {
                self.progress.from = bound.plan.len();
                self.asked = true;
                self.due = None;
                Ok(())
            }
        }
    }

    // The declared act of what is due is done.
    pub(crate) fn do_act(
        &mut self,
        alloc: Global,
        cat: &Catalogue,
        bound: &Bound<'_>,
        out: &mut Outcome,
    ) -> Result<(), AnswerFault>
        requires there { IsThere (units_of cat.now) (as_found bound.now) }
        requires sincere { ⟦<Catalogue as Sincere>⟧.sincere cat.now }
        ensures fault { MatchOption (due_in (as_found bound.now) self.old)
            ((result ≡ Err AnswerFault.NotDue) × (self.new ≡ self.old) × (out.new ≡ out.old))
            (λ _. IfErr result (λ why. why ≡ AnswerFault.NoMemory)) }
        ensures told { OnOk result ((sig : EventTypeData) →
            Tells (units_of cat.now) sig (as_found bound.now) Done self.old self.new out.old out.new) }
        ensures event { self.new.event ≡ self.old.event }
    {
        match self.due_there(bound) {
            None => Err(AnswerFault::NotDue),
            Some(Due::Binding(at)) => {
                let binding = bound.plan.binding(at);
                let word = fire(
                    alloc,
                    cat,
                    binding,
                    Runner::Raiser,
                    &mut self.progress.args,
                    out,
                )?;
                self.settle_binding(alloc, bound, at, word)?;
                Ok(())
            }
            Some(Due::Default) => {
                let word = run_handler(alloc, cat, bound.default, 0, &mut self.progress.args, out)?;
                self.settle_default(bound, word);
                Ok(())
            }
        }
    }

    // The host's own handler ran in the place of what is due, and gave this, of which nothing is left then.
    pub(crate) fn gave(
        &mut self,
        sig: &EventType,
        bound: &Bound<'_>,
        gift: &mut Gift,
        out: &mut Outcome,
        spare: &mut Spare,
    ) -> Result<(), AnswerFault>
        ensures fault { MatchOption (specs.answer_fault sig.now (due_in (as_found bound.now) self.old) gift.old)
            (IfErr result (λ why. why ≡ AnswerFault.NoMemory))
            (λ why. (result ≡ Err why) × (self.new ≡ self.old) × (out.new ≡ out.old) × (gift.new ≡ gift.old)) }
        ensures told { OnOk result ((u : Units) →
            Tells u sig.now (as_found bound.now) (Gave gift.old) self.old self.new out.old out.new) }
        ensures gift { OnOk result (gift.new ≡ []) }
        ensures event { self.new.event ≡ self.old.event }
    {
        match self.due_there(bound) {
            None => Err(AnswerFault::NotDue),
            Some(Due::Binding(at)) => {
                let binding = bound.plan.binding(at);
                if let Some(fault) = gift_fault(sig, binding.mode, gift) {
                    return Err(AnswerFault::Refused(fault));
                }
                let word = fire_gift(binding, gift, &mut self.progress.args, out, spare)?;
                self.settle_binding(out.allocator(), bound, at, word)?;
                Ok(())
            }
            Some(Due::Default) => {
                if let Some(fault) = gift_fault(sig, Mode::Plain, gift) {
                    return Err(AnswerFault::Refused(fault));
                }
                let word = run_gift(0, gift, &mut self.progress.args, out, spare)?;
                self.settle_default(bound, word);
                Ok(())
            }
        }
    }
}
