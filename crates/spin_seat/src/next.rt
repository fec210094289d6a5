//! The next version, whole, before a command is published.

ghost use Rattle.std.specs.Prelude.{◌≡◌, ◌+◌, ◌<◌, IsTrue, IfOk, Err, MatchResult};
ghost use Rattle.std.specs.Arc.{arc_value};
ghost use Rattle.spin_word.specs.Commands.{is_command, no_number};
ghost use Rattle.spin_table.specs.SetupOf.{data_of};
ghost use Rattle.spin_table.specs.Soundness.{IsSoundVersion};
ghost use Rattle.spin_table.specs.Steps.{IsAnswer, IsStep};
ghost use Rattle.spin_table.specs.declared.refusal.Verdicted.TheVariants as verdicted;

use spin_code::Sincere;
use spin_objects::Catalogue;
use spin_table::{Setup, StepFault, Version};
use spin_word::Command;
use std::alloc::Global;
use std::sync::Arc;

// The version after the command, with all the memory that it needs, or why there is none.
pub(crate) fn next_version(
    alloc: Global,
    setup: &Setup,
    version: &Arc<Version>,
    c: &Command,
) -> Result<Arc<Version>, StepFault>
    requires sincere { ⟦<Catalogue as Sincere>⟧.sincere setup.now.catalogue }
    requires valid { IsTrue (is_command c.now) }
    requires room { (arc_value version.now).state.place + 1 < no_number }
    requires sound { IsSoundVersion (data_of setup.now) (arc_value version.now) }
    ensures answer { let d = data_of setup.now in
        let state = (arc_value version.now).state in
        MatchResult result (λ next. IsStep d state c.now verdicted.Accepted (arc_value next).state)
        (λ fault. IsAnswer d state c.now (Err fault)) }
    ensures sound { IfOk result (λ next. IsSoundVersion (data_of setup.now) (arc_value next)) }
{
    let next = version.next(alloc, setup, c)?;
    Ok(Arc::new(alloc, next)?)
}
