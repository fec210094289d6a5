//! Whether a text is a report of a script.

ghost use Rattle.std.specs.Prelude.{◌≡◌, ◌<◌, ◌≤◌, ◌+◌, ◌++◌, ℕ, List, All, Decides, IfOk};
ghost use Rattle.std.specs.Prelude.{OnOk, Option, length, bytes_eq, slice_index_or, false};
ghost use Rattle.std.specs.Option.{option_map, option_copied};
ghost use Rattle.spin_word.specs.declared.command.TheConstants.{MAX_PLACE};
ghost use Rattle.spin_endpoint.specs.Named.{NamedEnd};
ghost use Rattle.spin_table.specs.SetupOf.{data_of};
ghost use Rattle.spin_table.specs.Soundness.{IsSoundVersion};
ghost use Rattle.spin_text.specs.Words.{ended};
ghost use Rattle.spin_script.specs.Scripts.{script_seen};
ghost use Rattle.spin_script.specs.Segments.{IsOrderly};
ghost use Rattle.spin_script.specs.Soundness.{AreValid, command_lines};
ghost use Rattle.spin_report.specs.Histories.{end_line};
ghost use Rattle.spin_report.specs.Runs.{frames_of, counts_of};
ghost use Rattle.spin_check.specs.RunTexts.{StandAs, IsRunText, capture_of};
ghost use Rattle.spin_check.specs.Inner.Standings.{AreFlags};
ghost use Rattle.spin_check.specs.Inner.Remains.{AreLeft};
ghost use Rattle.spin_check.specs.Inner.Segments.{version_of};

use crate::front::behind;
use crate::last::put_last;
use crate::segment::Mark;
use crate::start::{flags_of, records_of};
use spin_code::Sincere;
use spin_objects::Catalogue;
use spin_pcap::Captured;
use spin_script::Script;
use spin_table::Version;
use spin_values::{NoMemory, Octets, Texts};
use std::alloc::Global;
use std::sync::Arc;

// Whether what is left of the report is its last line.
fn is_end(alloc: Global, mark: &Mark<'_>, capture: Option<&Captured>) -> Result<bool, NoMemory>
    requires left { length mark.now.left ≤ length (frames_of (option_map capture_of (option_copied capture))) }
    ensures { let counts = option_map (counts_of mark.now.left) (option_map capture_of (option_copied capture.entry)) in
        IfOk result (λ yes. Decides yes (mark.now.rest ≡ ended (end_line mark.now.state.place counts))) }
{
    let mut line = Octets::new(alloc);
    put_last(&mut line, mark.version.place(), capture, mark.left)?;
    Ok(mark.rest == line.as_slice())
}

// Whether what is left of the report is of the script's segments, from the first on, and of the last line.
fn are_left(
    alloc: Global,
    script: &Script,
    capture: Option<&Captured>,
    mark: &mut Mark<'_>,
) -> Result<bool, NoMemory>
    requires sincere { ⟦<Catalogue as Sincere>⟧.sincere script.now.setup.catalogue }
    requires valid { AreValid script.now.segments }
    requires commands { mark.old.state.place + command_lines script.now.segments ≤ MAX_PLACE }
    requires orderly { IsOrderly (script_seen script.now) }
    requires sound { IsSoundVersion (data_of script.now.setup) (version_of mark.old) }
    requires long { length mark.old.flags ≡ length script.now.endpoints }
    requires left { length mark.old.left ≤ length (frames_of (option_map capture_of (option_copied capture))) }
    ensures { (ends : List NamedEnd) → AreFlags script.now.endpoints ends mark.old.flags
        → IfOk result (λ yes. Decides yes (AreLeft (script_seen script.now)
        (option_map capture_of (option_copied capture.entry)) ends mark.old)) }
{
    for number in 0..script.segments.len() {
        let segment = script.segments.get(number);
        let went = mark.pass(alloc, &script.setup, script.lanes, number, segment)?;
        if !went {
            return Ok(false);
        }
    }
    is_end(alloc, mark, capture)
}

/// Whether the report is the text of one legal history of the script with the capture, `names` being the names of the
/// endpoints that stand at its start: whether some run of the script could have written it, whatever the schedule of
/// its lanes. It is judged by the very definition of whole histories by which [`spin_report`] says what a run writes.
///
/// The deeds are replayed along the report. Each line that the history so far owes is made anew and compared; of an
/// entry's line the lane is read, which tells whose deed comes next, and of a conflict the cycle, which may be any
/// cycle of the bindings; nothing is searched.
///
/// Its time is linear in the report, the script and the records that packet lines take, beside the work of the raises.
/// Its memory, beside the script, the capture and the report, is what the lanes of one segment are still to do, one
/// version, one answer with its line, a byte for each send of a segment, and the lines of a segment's jobs. These
/// stand behind the segment's entries in the report: where they are longer than what is left of it the answer is no,
/// and no further job is done, so that no more of them is held than the report is long and one line.
///
/// The script is one that [`read_script`](spin_script::read_script) gives, and the catalogue's objects do what they
/// were handed in with; the capture may have any number of records. It is refused only for want of memory.
pub fn check_report(
    alloc: Global,
    script: &Script,
    names: &Texts,
    capture: Option<&Captured>,
    report: &[u8],
) -> Result<bool, NoMemory>
    requires sincere { ⟦<Catalogue as Sincere>⟧.sincere script.now.setup.catalogue }
    requires valid { AreValid script.now.segments }
    requires commands { command_lines script.now.segments ≤ MAX_PLACE }
    requires orderly { IsOrderly (script_seen script.now) }
    ensures { (ends : List NamedEnd) → StandAs script.now.endpoints names.now ends
        → IfOk result (λ yes. Decides yes (IsRunText (script_seen script.now)
        (option_map capture_of (option_copied capture.entry)) ends report.now)) }
{
    let Some(rest) = behind(report, b"report 1\n") else {
        return Ok(false);
    };
    let version = Version::start(alloc, &script.setup)?;
    let mut mark = Mark {
        rest,
        version: Arc::new(alloc, version)?,
        left: records_of(capture),
        flags: flags_of(alloc, script.endpoints.as_slice(), names.as_slice())?,
    };
    are_left(alloc, script, capture, &mut mark)
}
