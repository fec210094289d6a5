//! A whole raise through an open one.

ghost use Rattle.std.specs.Prelude.{◌≡◌, ◌++◌, OnOk, IfOk, flat_map};
ghost use Rattle.spin_plan.specs.Planned.{IsOver};
ghost use Rattle.spin_objects.specs.Units.{tests_of};
ghost use Rattle.spin_raise.specs.Firing.{units_of, as_found, IsThere, fired, items_by, answer_of};

use crate::firing::AnswerFault;
use crate::frame::Frame;
use spin_code::Sincere;
use spin_objects::{Catalogue, Outcome};
use spin_raise::{Answer, Bound, Runner};
use spin_values::Args;
use std::alloc::Global;

/// Raises an event by an open raise in which each firing that is told has its act done: it answers and appends what
/// [`spin_raise::raise`] does. So the calls of an open raise make one, from the first to the last.
pub fn raise_by_acts(
    alloc: Global,
    cat: &Catalogue,
    bound: &Bound<'_>,
    args: Args,
    out: &mut Outcome,
) -> Result<Answer, AnswerFault>
    requires there { IsThere (units_of cat.now) (as_found bound.now) }
    requires over { IsOver (tests_of cat.now) bound.now.plan.now }
    requires sincere { ⟦<Catalogue as Sincere>⟧.sincere cat.now }
    ensures answer { let all = fired Runner.Raiser (units_of cat.now) (as_found bound.now) args in
        IfOk result (λ answer. answer ≡ answer_of bound.now.merge.now all) }
    ensures out { let all = fired Runner.Raiser (units_of cat.now) (as_found bound.now) args in
        OnOk result (out.new ≡ out.old ++ flat_map items_by all) }
{
    let mut frame = Frame::begin(0, args);
    'turns: while let Some(_) = frame.next(cat, bound) {
        frame.do_act(alloc, cat, bound, out)?;
    }
    Ok(frame.progress.answer)
}
