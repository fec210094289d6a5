//! A raise with its raises upwards, depth first.

ghost use Rattle.std.specs.Prelude.{◌≡◌, ◌<◌, [], length, IfOk};
ghost use Rattle.std.specs.List.{flat_map};
ghost use Rattle.spin_table.specs.SetupOf.{data_of};
ghost use Rattle.spin_table.specs.Soundness.{IsSoundVersion};
ghost use Rattle.spin_proto.specs.Replies.{units_in};
ghost use Rattle.spin_proto.specs.Whole.{marks_of, raised, raised_after};
ghost use Rattle.spin_proto.specs.Inner.Walks.{OnBounds, Comes, UpsRise};

use crate::reply::Step;
use crate::turning::turn;
use crate::walk::{Upward, Walk};
use spin_code::Sincere;
use spin_objects::{Catalogue, Outcome};
use spin_raise::{Answer, Bound, Progress, Runner, Stepped};
use spin_table::{Setup, Version};
use spin_values::{NoMemory, Sequence};
use std::alloc::Global;

// Does a raise of an event that is there, with its raises upwards. `None` where too many handlers start. What the
// raise under way and the list hold afterwards counts for nothing: they are lent for their room.
//
// It calls itself, and no other function does with it: functions that call one another in a ring may not be lent
// boxed objects. So the raises upwards of a firing are done here, and for a job once more in `jobs`.
pub(crate) fn raise_event(
    alloc: Global,
    version: &Version,
    setup: &Setup,
    runner: Runner,
    event: u8,
    progress: &mut Progress,
    given: &mut Outcome,
    walk: &mut Walk,
) -> Result<Option<Answer>, NoMemory>
    requires sound { IsSoundVersion (data_of setup.now) version.now }
    requires sincere { ⟦<Catalogue as Sincere>⟧.sincere setup.now.catalogue }
    requires there { event < length version.now.state.events }
    requires from { progress.old.from ≡ 0 }
    requires answer { progress.old.answer ≡ Answer.NoHandler }
    ensures { IfOk result (λ answer. OnBounds (data_of setup.now) version.now.state (λ bounds.
        let all = raised runner (units_in (data_of setup.now)) bounds 0 event progress.old.args in
        Comes answer all walk.old walk.new)) }
{
    let cat = setup.catalogue();
    let def = setup.event(event);
    let plan = version.plan(event);
    let default = version.default_of(event);
    let bound = Bound {
        plan,
        merge: &def.merge,
        default,
    };
    let mut ups = Sequence::new(alloc);
    'turns: loop {
        match turn(
            alloc, cat, &bound, runner, event, progress, given, walk, &mut ups,
        )? {
            Stepped::End => return Ok(Some(progress.answer)),
            Stepped::Full => return Ok(None),
            Stepped::Ran => {
                if ups.is_empty() {
                    continue 'turns;
                }
                ups.reverse();
                while let Some(up) = ups.pop() {
                    let Upward { event: to, args } = up;
                    walk.note(Step::Up(to))?;
                    let mut own = Progress {
                        from: 0,
                        answer: Answer::NoHandler,
                        args,
                    };
                    match raise_event(alloc, version, setup, runner, to, &mut own, given, walk)? {
                        None => return Ok(None),
                        Some(answer) => walk.note(Step::Back(answer))?,
                    }
                }
            }
        }
    }
}
