//! The commands of a script, one after another.

ghost use Rattle.std.specs.Prelude.{◌≡◌, ◌<◌, ◌≤◌, ◌+◌, ◌∷◌, [], All, IsTrue, IfOk};
ghost use Rattle.spin_word.specs.Commands.{is_command};
ghost use Rattle.spin_word.specs.declared.command.TheConstants.{MAX_PLACE};
ghost use Rattle.spin_table.specs.SetupOf.{data_of};
ghost use Rattle.spin_table.specs.Soundness.{IsSoundVersion};
ghost use Rattle.spin_script.specs.Soundness.{IsValidWork, commands_in};
ghost use Rattle.spin_filter.specs.Commands.{commands_of};
ghost use Rattle.spin_filter.specs.Inner.Giving.{IsGiven, IsCommanded};

use crate::tally::one_more;
use spin_code::Sincere;
use spin_objects::Catalogue;
use spin_script::Line;
use spin_table::{Setup, StepFault, Version};
use spin_values::NoMemory;
use spin_word::{Command, Work};
use std::alloc::Global;

// What commands came to.
#[derive(Drop)]
pub(crate) struct Commanded {
    // The version that they left.
    pub(crate) version: Version,
    // How many were refused, up to the greatest number of 64 bits.
    pub(crate) refused: u64,
}

// Gives one command.
fn give(
    alloc: Global,
    setup: &Setup,
    so_far: Commanded,
    command: &Command,
) -> Result<Commanded, NoMemory>
    requires sincere { ⟦<Catalogue as Sincere>⟧.sincere setup.now.catalogue }
    requires valid { IsTrue (is_command command.now) }
    requires room { so_far.version.state.place < MAX_PLACE }
    requires sound { IsSoundVersion (data_of setup.now) so_far.version }
    ensures given { IfOk result (λ now. IsGiven (data_of setup.now) (command.now ∷ []) so_far now) }
    ensures sound { IfOk result (λ now. IsSoundVersion (data_of setup.now) now.version) }
{
    let Commanded { version, refused } = so_far;
    match version.next(alloc, setup, command) {
        Ok(next) => Ok(Commanded {
            version: next,
            refused,
        }),
        Err(StepFault::Refused(_refusal)) => Ok(Commanded {
            version,
            refused: one_more(refused),
        }),
        Err(StepFault::NoMemory) => Err(NoMemory),
    }
}

// Gives the command of a line, if it has one.
fn give_line(
    alloc: Global,
    setup: &Setup,
    so_far: Commanded,
    line: &Line,
) -> Result<Commanded, NoMemory>
    requires sincere { ⟦<Catalogue as Sincere>⟧.sincere setup.now.catalogue }
    requires valid { IsValidWork line.now.work }
    requires room { so_far.version.state.place + commands_in (line.now ∷ []) ≤ MAX_PLACE }
    requires sound { IsSoundVersion (data_of setup.now) so_far.version }
    ensures given { IfOk result (λ now. IsGiven (data_of setup.now) (commands_of (line.now ∷ [])) so_far now) }
    ensures sound { IfOk result (λ now. IsSoundVersion (data_of setup.now) now.version) }
{
    match &line.work {
        Work::Command(command) => give(alloc, setup, so_far, command),
        _ => Ok(so_far),
    }
}

// Gives the commands among these lines, in order.
fn give_commands(
    alloc: Global,
    setup: &Setup,
    so_far: Commanded,
    lines: &[Line],
) -> Result<Commanded, NoMemory>
    requires sincere { ⟦<Catalogue as Sincere>⟧.sincere setup.now.catalogue }
    requires valid { All (λ line. IsValidWork line.work) lines.now }
    requires room { so_far.version.state.place + commands_in lines.now ≤ MAX_PLACE }
    requires sound { IsSoundVersion (data_of setup.now) so_far.version }
    ensures given { IfOk result (λ now. IsGiven (data_of setup.now) (commands_of lines.now) so_far now) }
    ensures sound { IfOk result (λ now. IsSoundVersion (data_of setup.now) now.version) }
{
    let mut now = so_far;
    for line in lines {
        now = give_line(alloc, setup, now, line)?;
    }
    Ok(now)
}

// Gives the commands among these lines, in order, where none was given yet.
pub(crate) fn give_all(alloc: Global, setup: &Setup, lines: &[Line]) -> Result<Commanded, NoMemory>
    requires sincere { ⟦<Catalogue as Sincere>⟧.sincere setup.now.catalogue }
    requires valid { All (λ line. IsValidWork line.work) lines.now }
    requires few { commands_in lines.now ≤ MAX_PLACE }
    ensures given { IfOk result (IsCommanded (data_of setup.now) (commands_of lines.now)) }
    ensures sound { IfOk result (λ now. IsSoundVersion (data_of setup.now) now.version) }
{
    let version = Version::start(alloc, setup)?;
    let start = Commanded {
        version,
        refused: 0,
    };
    give_commands(alloc, setup, start, lines)
}
