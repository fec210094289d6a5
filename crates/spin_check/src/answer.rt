//! What a lane's next command or deed comes to at a version, the cycle of a conflict being the one that is told.

ghost use Rattle.std.specs.Prelude.{◌≡◌, ◌<◌, true, IsTrue, ℕ, List, Some, IfOk};
ghost use Rattle.std.specs.Arc.{arc_value};
ghost use Rattle.spin_word.specs.Commands.{is_command};
ghost use Rattle.spin_word.specs.declared.command.TheConstants.{MAX_PLACE};
ghost use Rattle.spin_word.specs.declared.work.Work.TheVariants as work;
ghost use Rattle.spin_table.specs.SetupOf.{data_of};
ghost use Rattle.spin_table.specs.Soundness.{IsSoundVersion};
ghost use Rattle.spin_table.specs.Steps.{IsAnswer, IsStep};
ghost use Rattle.spin_table.specs.declared.refusal.Verdicted.TheVariants as verdicted;
ghost use Rattle.spin_script.specs.Soundness.{IsValidWork, is_command_work};
ghost use Rattle.spin_check.specs.Inner.Asks.{IsValid, asks_command, work_of};
ghost use Rattle.spin_check.specs.Inner.Answers.{tells_cycle, IsConflictTold, IsJudged, IsDone, IsAnswered};

use crate::deeds::{Ask, Asked};
use crate::told::cycle_told;
use spin_code::Sincere;
use spin_objects::Catalogue;
use spin_proto::path;
use spin_report::{Entry, What};
use spin_script::Deed;
use spin_table::{Refusal, Setup, StepFault, Verdicted, Version};
use spin_values::{NoMemory, Numbers};
use spin_word::Command;
use std::alloc::Global;
use std::sync::Arc;

// An entry, and the version that it leads to.
#[derive(Drop)]
pub(crate) struct Answered {
    pub(crate) entry: Entry,
    pub(crate) version: Arc<Version>,
}

// What became of a command, and the version after it.
#[derive(Drop)]
struct Judged {
    verdict: Verdicted,
    version: Arc<Version>,
}

// What is answered, and the version that it leads to.
#[derive(Drop)]
struct Done {
    what: What,
    version: Arc<Version>,
}

fn tells_cycle(refusal: &Refusal) -> bool
    ensures { result ≡ tells_cycle refusal.now }
{
    matches!(refusal, Refusal::Conflict(_))
}

// The cycle that the report tells, where the command may be refused for a conflict of it.
fn conflict_told(
    alloc: Global,
    setup: &Setup,
    version: &Version,
    c: &Command,
    report: &[u8],
) -> Result<Option<Numbers>, NoMemory>
    requires sincere { ⟦<Catalogue as Sincere>⟧.sincere setup.now.catalogue }
    requires room { version.now.state.place < MAX_PLACE }
    requires sound { IsSoundVersion (data_of setup.now) version.now }
    ensures { IfOk result (IsConflictTold (data_of setup.now) version.now.state c.now report.now) }
{
    let Some(cycle) = cycle_told(alloc, report)? else {
        return Ok(None);
    };
    let may = version.may_conflict(alloc, setup, c, cycle.as_slice())?;
    if !may {
        return Ok(None);
    }
    Ok(Some(cycle))
}

// What became of a command to which a conflict applies, where the report tells a cycle of it.
fn judge_conflict(
    alloc: Global,
    setup: &Setup,
    version: &Arc<Version>,
    c: &Command,
    report: &[u8],
) -> Result<Option<Judged>, NoMemory>
    requires sincere { ⟦<Catalogue as Sincere>⟧.sincere setup.now.catalogue }
    requires room { (arc_value version.now).state.place < MAX_PLACE }
    requires sound { IsSoundVersion (data_of setup.now) (arc_value version.now) }
    requires conflict { let d = data_of setup.now in
        (r : Refusal) × (tells_cycle r ≡ true)
        × IsStep d (arc_value version.now).state c.now (verdicted.Refused r) (arc_value version.now).state }
    ensures { let d = data_of setup.now in
        IfOk result (IsJudged d (arc_value version.now).state c.now report.now) }
{
    let Some(cycle) = conflict_told(alloc, setup, version, c, report)? else {
        return Ok(None);
    };
    Ok(Some(Judged {
        verdict: Verdicted::Refused(Refusal::Conflict(cycle)),
        version: Arc::try_clone(version)?,
    }))
}

// What becomes of a command.
fn judge(
    alloc: Global,
    setup: &Setup,
    version: &Arc<Version>,
    c: &Command,
    report: &[u8],
) -> Result<Option<Judged>, NoMemory>
    requires sincere { ⟦<Catalogue as Sincere>⟧.sincere setup.now.catalogue }
    requires valid { IsTrue (is_command c.now) }
    requires room { (arc_value version.now).state.place < MAX_PLACE }
    requires sound { IsSoundVersion (data_of setup.now) (arc_value version.now) }
    ensures judged { let d = data_of setup.now in
        IfOk result (IsJudged d (arc_value version.now).state c.now report.now) }
{
    match version.next(alloc, setup, c) {
        Ok(next) => Ok(Some(Judged {
            verdict: Verdicted::Accepted,
            version: Arc::new(alloc, next)?,
        })),
        Err(StepFault::NoMemory) => Err(NoMemory),
        Err(StepFault::Refused(refusal)) => {
            if tells_cycle(&refusal) {
                return judge_conflict(alloc, setup, version, c, report);
            }
            Ok(Some(Judged {
                verdict: Verdicted::Refused(refusal),
                version: Arc::try_clone(version)?,
            }))
        }
    }
}

// What is answered to a command.
fn do_command(
    alloc: Global,
    setup: &Setup,
    version: &Arc<Version>,
    c: Command,
    report: &[u8],
) -> Result<Option<Done>, NoMemory>
    requires sincere { ⟦<Catalogue as Sincere>⟧.sincere setup.now.catalogue }
    requires valid { IsTrue (is_command c) }
    requires room { (arc_value version.now).state.place < MAX_PLACE }
    requires sound { IsSoundVersion (data_of setup.now) (arc_value version.now) }
    ensures { let d = data_of setup.now in
        IfOk result (IsDone d (arc_value version.now).state (work.Command c) report.now) }
{
    let Some(Judged { verdict, version }) = judge(alloc, setup, version, &c, report)? else {
        return Ok(None);
    };
    let what = What::Command(c, verdict);
    Ok(Some(Done { what, version }))
}

// What is answered to a deed, which leaves the version.
fn do_deed(
    alloc: Global,
    setup: &Setup,
    version: &Arc<Version>,
    deed: Deed,
) -> Result<Done, NoMemory>
    requires sincere { ⟦<Catalogue as Sincere>⟧.sincere setup.now.catalogue }
    requires sound { IsSoundVersion (data_of setup.now) (arc_value version.now) }
    ensures { let d = data_of setup.now in (report : List ℕ)
        → IfOk result (λ done. IsDone d (arc_value version.now).state (work.Deed deed) report (Some done)) }
{
    let same = Arc::try_clone(version)?;
    let reply = path(alloc, version, setup, &deed)?;
    Ok(Done {
        what: What::Deed(deed, reply),
        version: same,
    })
}

// What is answered to what a lane is to do, where the report can begin with the line of its entry.
fn do_asked(
    alloc: Global,
    setup: &Setup,
    version: &Arc<Version>,
    asked: Asked,
    report: &[u8],
) -> Result<Option<Done>, NoMemory>
    requires sincere { ⟦<Catalogue as Sincere>⟧.sincere setup.now.catalogue }
    requires valid { IsValidWork (work_of asked) }
    requires room { is_command_work (work_of asked) ≡ true → (arc_value version.now).state.place < MAX_PLACE }
    requires sound { IsSoundVersion (data_of setup.now) (arc_value version.now) }
    ensures { let d = data_of setup.now in
        IfOk result (IsDone d (arc_value version.now).state (work_of asked) report.now) }
{
    match asked {
        Asked::Command(c) => do_command(alloc, setup, version, c, report),
        Asked::Deed(deed) => {
            let done = do_deed(alloc, setup, version, deed)?;
            Ok(Some(done))
        }
    }
}

// The entry that answers this at the version, where the report can begin with its line: each that it can begin with
// is this one. The version that it leads to is sound.
pub(crate) fn answer(
    alloc: Global,
    setup: &Setup,
    version: &Arc<Version>,
    ask: Ask,
    report: &[u8],
) -> Result<Option<Answered>, NoMemory>
    requires sincere { ⟦<Catalogue as Sincere>⟧.sincere setup.now.catalogue }
    requires valid { IsValid ask }
    requires room { asks_command ask ≡ true → (arc_value version.now).state.place < MAX_PLACE }
    requires sound { IsSoundVersion (data_of setup.now) (arc_value version.now) }
    ensures { let d = data_of setup.now in
        IfOk result (IsAnswered d (arc_value version.now).state ask report.now) }
{
    let Ask {
        lane,
        line,
        part,
        asked,
    } = ask;
    let Some(Done { what, version }) = do_asked(alloc, setup, version, asked, report)? else {
        return Ok(None);
    };
    let entry = Entry {
        place: version.place(),
        lane,
        line,
        part,
        what,
    };
    Ok(Some(Answered { entry, version }))
}
