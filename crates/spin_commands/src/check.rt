//! The command `check`: whether a report is that of a history of a script.

ghost use Rattle.std.specs.Prelude.{◌≡◌, ◌≤◌, ℕ, List, Decides, IfOk, IfErr, IfSome, length, option_map};
ghost use Rattle.spin_check.specs.RunTexts.{IsRunText, StandAs, capture_of};
ghost use Rattle.spin_word.specs.declared.command.TheConstants.{MAX_PLACE};
ghost use Rattle.spin_pcap.specs.declared.limits.TheConstants.{MAX_RECORDS};
ghost use Rattle.spin_outside.specs.Seen.{ShelfSeen};
ghost use Rattle.spin_script.specs.States.{NativeData, natives_seen};
ghost use Rattle.spin_script.specs.Scripts.{script_seen};
ghost use Rattle.spin_script.specs.Segments.{IsOrderly};
ghost use Rattle.spin_script.specs.Soundness.{AreValid, command_lines};
ghost use Rattle.spin_commands.specs.Check.{max_report, answer, answer_end, IsCheckStatus, NoReportBy, TellsAnswer};
ghost use Rattle.spin_inputs.specs.Loading.{IsContent, IsLoaded};
ghost use Rattle.spin_inputs.specs.Outside.{outside};
ghost use Rattle.spin_inputs.specs.Shelves.{ShelfStood};

use spin_check::check_report;
use spin_code::Sincere;
use spin_endpoint::{Ends, EndsSeen};
use spin_inputs::{End, Input, LoadFault, captured_of, load, script_of, stop};
use spin_objects::{Catalogue, Natives};
use spin_outside::{Failed, Shelf, Sink, write_all};
use spin_pcap::Captured;
use spin_script::Script;
use spin_values::{NoMemory, Octets, Text, Texts};
use std::alloc::Global;

/// The names that `check` is given.
#[derive(Clone, Copy)]
pub struct CheckNames<'a> {
    /// The script's.
    pub script: &'a Text,
    /// The report's.
    pub report: &'a Text,
    /// The capture's, if one is named.
    pub packets: &'a Option<Text>,
}

/// The most bytes that a report may have.
pub const REPORT_LIMIT: u32 = 67_108_864;

// The text of the report of that name.
fn report_of<F: Shelf>(alloc: Global, shelf: &mut F, name: &Text) -> Result<Octets, End>
    ensures stood { IfOk result (λ _. ShelfStood (F.seen shelf.old) (F.seen shelf.new)) }
    ensures read { IfOk result (λ text. IsContent (F.seen shelf.old).files name.now text) }
    ensures few { IfOk result (λ text. length text ≤ max_report) }
    ensures refused { IfErr result (NoReportBy (F.seen shelf.old) (F.seen shelf.new) name.now) }
{
    match load(alloc, shelf, name, REPORT_LIMIT) {
        Ok(text) => Ok(text),
        Err(LoadFault::Absent) => Err(End::Absent(Input::Report)),
        Err(LoadFault::Failed) => Err(End::Unread(Input::Report)),
        Err(LoadFault::TooLarge) => Err(End::LongReport),
        Err(LoadFault::NoMemory) => Err(End::NoMemory),
    }
}

// The names among these under which an endpoint stands.
fn standing(alloc: Global, endpoints: &Texts, ends: &Ends) -> Result<Texts, NoMemory>
    ensures { IfOk result
        (λ names. StandAs endpoints.now names (⟦<Ends as EndsSeen>⟧.all ends.now)) }
{
    let mut names = Texts::new(alloc);
    for name in endpoints.as_slice() {
        if ends.stands(name) {
            names.push(name.copy()?)?;
        }
    }
    Ok(names)
}

// Whether the report is that of a history of the script, with the capture and the endpoints that stand.
fn is_of_history(
    alloc: Global,
    script: &Script,
    capture: &Option<Captured>,
    ends: &Ends,
    report: &[u8],
) -> Result<bool, NoMemory>
    requires sincere { ⟦<Catalogue as Sincere>⟧.sincere script.now.setup.catalogue }
    requires valid { AreValid script.now.segments }
    requires commands { command_lines script.now.segments ≤ MAX_PLACE }
    requires orderly { IsOrderly (script_seen script.now) }
    requires few { IfSome capture.now (λ c. length c.frames ≤ MAX_RECORDS) }
    ensures { IfOk result (λ yes. Decides yes (IsRunText (script_seen script.now)
        (option_map capture_of capture.now) (⟦<Ends as EndsSeen>⟧.all ends.now) report.now)) }
{
    let names = standing(alloc, &script.endpoints, ends)?;
    check_report(alloc, script, &names, capture.as_ref(), report)
}

// The line of the answer.
fn answer_line(yes: bool) -> &'static [u8]
    ensures { result.now ≡ answer yes }
{
    if yes { b"yes\n" } else { b"no\n" }
}

// How a call ends whose answer was written.
fn answer_end(yes: bool) -> End
    ensures { result ≡ answer_end yes }
{
    if yes { End::Whole } else { End::NoHistory }
}

// Writes the answer, and says how the call then ends.
fn tell<K: Sink>(out: &mut K, yes: bool) -> End
    ensures { TellsAnswer (K.seen out.old) (K.seen out.new) yes result }
{
    match write_all(out, answer_line(yes)) {
        Ok(()) => answer_end(yes),
        Err(Failed) => End::WriteFault,
    }
}

// Judges the report by a script that was read, and answers the status.
fn check_script<F: Shelf, K: Sink>(
    alloc: Global,
    script: &Script,
    names: &CheckNames<'_>,
    shelf: &mut F,
    out: &mut K,
    ends: &Ends,
) -> u8
    requires sincere { ⟦<Catalogue as Sincere>⟧.sincere script.now.setup.catalogue }
    requires valid { AreValid script.now.segments }
    requires commands { command_lines script.now.segments ≤ MAX_PLACE }
    requires orderly { IsOrderly (script_seen script.now) }
    ensures { (natives : NativeData) (before : ShelfSeen) (name : List ℕ)
        → ShelfStood before (F.seen shelf.old)
        → IsLoaded natives before.files name (script_seen script.now)
        → IsCheckStatus natives
        (outside before (K.seen out.old) (⟦<Ends as EndsSeen>⟧.all ends.now))
        (outside (F.seen shelf.new) (K.seen out.new) (⟦<Ends as EndsSeen>⟧.all ends.now))
        name names.now.report.now names.now.packets.now result }
{
    let capture = match captured_of(alloc, shelf, names.packets) {
        Ok(capture) => capture,
        Err(end) => return stop(out, end),
    };
    let text = match report_of(alloc, shelf, names.report) {
        Ok(text) => text,
        Err(end) => return stop(out, end),
    };
    let yes = match is_of_history(alloc, script, &capture, ends, text.as_slice()) {
        Ok(yes) => yes,
        Err(NoMemory) => return stop(out, End::NoMemory),
    };
    let end = tell(out, yes);
    stop(out, end)
}

/// Does `check SCRIPT REPORT` or `check SCRIPT REPORT PACKETS`, and answers the status, which has its cause. Nothing is
/// sent to the endpoints; which of them stand is all that is asked. Script, capture and report are held in memory.
pub fn check_command<F: Shelf, K: Sink>(
    alloc: Global,
    names: &CheckNames<'_>,
    shelf: &mut F,
    out: &mut K,
    natives: Natives,
    ends: &Ends,
) -> u8
    requires sincere { ⟦<Natives as Sincere>⟧.sincere natives }
    ensures { IsCheckStatus (natives_seen natives)
        (outside (F.seen shelf.old) (K.seen out.old) (⟦<Ends as EndsSeen>⟧.all ends.now))
        (outside (F.seen shelf.new) (K.seen out.new) (⟦<Ends as EndsSeen>⟧.all ends.now))
        names.now.script.now names.now.report.now names.now.packets.now result }
{
    match script_of(alloc, shelf, names.script, natives) {
        Ok(script) => check_script(alloc, &script, names, shelf, out, ends),
        Err(end) => stop(out, end),
    }
}
