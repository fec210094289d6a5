//! Whole runs.

ghost use Rattle.std.specs.Prelude.{◌≡◌, ◌≤◌, ◌+◌, List, IfOk, OnOk, length};
ghost use Rattle.std.specs.Arc.{arc_value};
ghost use Rattle.std.specs.Option.{option_map, option_copied};
ghost use Rattle.spin_word.specs.declared.command.TheConstants.{MAX_PLACE};
ghost use Rattle.spin_endpoint.specs.Named.{NamedEnd};
ghost use Rattle.spin_table.specs.SetupOf.{data_of};
ghost use Rattle.spin_table.specs.Soundness.{IsSoundVersion};
ghost use Rattle.spin_script.specs.Scripts.{script_seen};
ghost use Rattle.spin_script.specs.Segments.{IsOrderly};
ghost use Rattle.spin_script.specs.Soundness.{AreValid, command_lines};
ghost use Rattle.spin_check.specs.RunTexts.{StandAs, capture_of};
ghost use Rattle.spin_check.specs.Inner.Standings.{AreFlags};
ghost use Rattle.spin_whole.specs.Runs.{IsRanAs};
ghost use Rattle.spin_whole.specs.Inner.Standings.{RunsAll};

use crate::ran::{Ran, Sendings};
use crate::segment::Standing;
use spin_check::{flags_of, put_last, records_of};
use spin_code::Sincere;
use spin_objects::Catalogue;
use spin_pcap::Captured;
use spin_script::Script;
use spin_table::Version;
use spin_values::{NoMemory, Octets, Texts};
use std::alloc::Global;
use std::sync::Arc;

// Runs the script's segments one after another.
fn run_segments(alloc: Global, script: &Script, standing: &mut Standing<'_>) -> Result<(), NoMemory>
    requires sincere { ⟦<Catalogue as Sincere>⟧.sincere script.now.setup.catalogue }
    requires valid { AreValid script.now.segments }
    requires commands { (arc_value standing.old.version).state.place + command_lines script.now.segments ≤ MAX_PLACE }
    requires orderly { IsOrderly (script_seen script.now) }
    requires sound { IsSoundVersion (data_of script.now.setup) (arc_value standing.old.version) }
    requires long { length standing.old.flags.items ≡ length script.now.endpoints }
    ensures runs { (ends : List NamedEnd) → AreFlags script.now.endpoints ends standing.old.flags.items
        → OnOk result (RunsAll (script_seen script.now) ends standing.old standing.new) }
    ensures left { OnOk result (length standing.new.left.now ≤ length standing.old.left.now) }
{
    for number in 0..script.segments.len() {
        let segment = script.segments.get(number);
        standing.run_segment(alloc, &script.setup, script.lanes, number, segment)?;
    }
    Ok(())
}

/// Runs a script whole, without threads: the report of one legal history of the script with the capture, `names` being
/// the names of the endpoints that stand at its start, and all that these endpoints receive in it. It is one of the
/// histories that a run may have whose lanes go side by side: in each segment lane after lane does its deeds, and what
/// a deed leaves to jobs is done at once, on the version of its place. With one lane it is the history of the script, but
/// for which cycle a conflict tells.
///
/// Nothing is kept of an entry but its line and its sends. Beside the work of the raises its time is linear in the
/// report, the sends and the records that packet lines take, and in the script's lines times the number of its lanes.
///
/// The script is one that [`read_script`](spin_script::read_script) gives, and the catalogue's objects do what they
/// were handed in with; the capture may have any number of records. It is refused only for want of memory.
pub fn run_text(
    alloc: Global,
    script: &Script,
    names: &Texts,
    capture: Option<&Captured>,
) -> Result<Ran, NoMemory>
    requires sincere { ⟦<Catalogue as Sincere>⟧.sincere script.now.setup.catalogue }
    requires valid { AreValid script.now.segments }
    requires commands { command_lines script.now.segments ≤ MAX_PLACE }
    requires orderly { IsOrderly (script_seen script.now) }
    ensures { (ends : List NamedEnd) → StandAs script.now.endpoints names.now ends
        → IfOk result (IsRanAs (script_seen script.now)
        (option_map capture_of (option_copied capture.entry)) ends) }
{
    let version = Version::start(alloc, &script.setup)?;
    let mut standing = Standing {
        report: Octets::from_slice(alloc, b"report 1\n")?,
        sends: Sendings::new(alloc),
        version: Arc::new(alloc, version)?,
        left: records_of(capture),
        flags: flags_of(alloc, script.endpoints.as_slice(), names.as_slice())?,
    };
    run_segments(alloc, script, &mut standing)?;
    let Standing {
        mut report,
        sends,
        version,
        left,
        ..
    } = standing;
    put_last(&mut report, version.place(), capture, left)?;
    Ok(Ran { report, sends })
}
