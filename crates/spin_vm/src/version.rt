//! The version that a script leaves.

ghost use Rattle.std.specs.Prelude.{◌≡◌, ◌+◌, ◌<◌, ◌≤◌, length, IsTrue, IfOk, All, true};
ghost use Rattle.spin_word.specs.declared.command.TheConstants.{MAX_PLACE};
ghost use Rattle.spin_word.specs.Commands.{is_command};
ghost use Rattle.spin_table.specs.SetupOf.{data_of};
ghost use Rattle.spin_table.specs.Soundness.{IsSoundVersion};
ghost use Rattle.spin_table.specs.States.{start_of};
ghost use Rattle.spin_script.specs.Scripts.{script_seen};
ghost use Rattle.spin_script.specs.Soundness.{AreValid, IsValidWork, command_lines, is_command_work};
ghost use Rattle.spin_vm.specs.Scripts.{are_commands, is_suited, Leads, AllLead, IsLast};
ghost use Rattle.spin_vm.specs.Inner.Commands.{LeadsBy};

use spin_code::Sincere;
use spin_objects::Catalogue;
use spin_script::{Line, Script, Work};
use spin_table::{Setup, StepFault, Version};
use spin_values::NoMemory;
use spin_word::Command;
use std::alloc::Global;

// The version after the command, which may be refused.
fn step(
    alloc: Global,
    setup: &Setup,
    version: Version,
    command: &Command,
) -> Result<Version, NoMemory>
    requires sincere { ⟦<Catalogue as Sincere>⟧.sincere setup.now.catalogue }
    requires valid { IsTrue (is_command command.now) }
    requires room { version.state.place < MAX_PLACE }
    requires sound { IsSoundVersion (data_of setup.now) version }
    ensures leads { IfOk result (λ next. LeadsBy (data_of setup.now) version.state command.now next.state) }
    ensures sound { IfOk result (λ next. IsSoundVersion (data_of setup.now) next) }
{
    match version.next(alloc, setup, command) {
        Ok(next) => Ok(next),
        Err(StepFault::Refused(_)) => Ok(version),
        Err(StepFault::NoMemory) => Err(NoMemory),
    }
}

// The version after what a line asks for, which is a command.
fn after_work(
    alloc: Global,
    setup: &Setup,
    version: Version,
    work: &Work,
) -> Result<Version, NoMemory>
    requires command { IsTrue (is_command_work work.now) }
    requires sincere { ⟦<Catalogue as Sincere>⟧.sincere setup.now.catalogue }
    requires valid { IsValidWork work.now }
    requires room { version.state.place < MAX_PLACE }
    requires sound { IsSoundVersion (data_of setup.now) version }
    ensures leads { IfOk result (λ next. Leads (data_of setup.now) version.state work.now next.state) }
    ensures sound { IfOk result (λ next. IsSoundVersion (data_of setup.now) next) }
{
    match work {
        Work::Command(command) => step(alloc, setup, version, command),
        _ => unreachable!(),
    }
}

// The version after the commands of lines, one after another.
fn after_lines(alloc: Global, setup: &Setup, lines: &[Line]) -> Result<Version, NoMemory>
    requires commands { IsTrue (are_commands lines.now) }
    requires valid { All (λ line. IsValidWork line.work) lines.now }
    requires few { length lines.now ≤ MAX_PLACE }
    requires sincere { ⟦<Catalogue as Sincere>⟧.sincere setup.now.catalogue }
    ensures last { IfOk result
        (λ last. AllLead (data_of setup.now) (start_of (data_of setup.now)) lines.now last.state) }
    ensures sound { IfOk result (λ version. IsSoundVersion (data_of setup.now) version) }
{
    let mut version = Version::start(alloc, setup)?;
    for line in lines {
        version = after_work(alloc, setup, version, &line.work)?;
    }
    Ok(version)
}

// The version that a script leaves, whose commands are applied in order.
pub(crate) fn last_version(alloc: Global, script: &Script) -> Result<Version, NoMemory>
    requires suited { IsTrue (is_suited (script_seen script.now)) }
    requires valid { AreValid script.now.segments }
    requires few { command_lines script.now.segments ≤ MAX_PLACE }
    requires sincere { ⟦<Catalogue as Sincere>⟧.sincere script.now.setup.catalogue }
    ensures last { IfOk result (λ last. IsLast (script_seen script.now) last.state) }
    ensures sound { IfOk result (λ version. IsSoundVersion (data_of script.now.setup) version) }
{
    after_lines(alloc, &script.setup, &script.segments.get(0).lines)
}
