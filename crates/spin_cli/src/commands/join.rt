//! The command `join`: a script, over a capture in which fragmented datagrams are made whole.

ghost use Rattle.std.specs.Prelude.{◌≡◌, ◌≤◌, IfOk, IfErr, IfSome, Some};
ghost use Rattle.spin_word.specs.declared.command.TheConstants.{MAX_PLACE};
ghost use Rattle.spin_pcap.specs.Passing.{IsFresh};
ghost use Rattle.spin_script.specs.States.{natives_seen};
ghost use Rattle.spin_script.specs.Scripts.{script_seen};
ghost use Rattle.spin_script.specs.Segments.{IsOrderly};
ghost use Rattle.spin_script.specs.Soundness.{AreValid, command_lines};
ghost use Rattle.spin_inputs.specs.Captures.{NoWholeBy};
ghost use Rattle.spin_cli.specs.Inner.Joining.{RunsJoined};
ghost use Rattle.spin_pcap.specs.Whole.{EndsByCount};
ghost use Rattle.spin_reass.specs.JoinedCaptures.{IsJoined, IsJoinedCapture};
ghost use Rattle.spin_cli.specs.Join.{IsJoinedBy, IsJoinStatus};
ghost use Rattle.spin_inputs.specs.Outside.{outside};

use crate::commands::run::end_of;
use crate::commands::{Means, RunNames};
use spin_code::Sincere;
use spin_endpoint::{Ends, EndsSeen};
use spin_inputs::{End, HeldCapture, behind_header, end_at, find_packets, script_of, stop};
use spin_objects::{Catalogue, Natives};
use spin_outside::{Gate, Shelf, ShelfSource, Sink};
use spin_pcap::BadRecord;
use spin_reass::join_capture;
use spin_run::{RunEnd, run_script};
use spin_script::Script;
use spin_values::{Octets, Text};
use std::alloc::Global;
use std::thread::Threads;

// The joined capture of the file of that number, which is read to its end.
fn join_file<F: Shelf>(alloc: Global, shelf: &mut F, file: u32) -> Result<Octets, BadRecord>
    ensures joined { IfSome ((F.seen shelf.old).left file) (λ text. IsJoined text result) }
    ensures good { IfOk result IsJoinedCapture }
    ensures files { (F.seen shelf.new).files ≡ (F.seen shelf.old).files }
    ensures absences { (F.seen shelf.new).absences ≡ (F.seen shelf.old).absences }
    ensures cause { EndsByCount (F.seen shelf.old).faults (F.seen shelf.new).faults result }
{
    let mut source = ShelfSource { shelf, file };
    join_capture(alloc, &mut source)
}

// The joined capture of the file of that name, which is read to its end.
fn joined_of<F: Shelf>(alloc: Global, shelf: &mut F, name: &Text) -> Result<Octets, End>
    ensures joined { IfOk result (IsJoinedBy (F.seen shelf.old) (F.seen shelf.new) name.now) }
    ensures good { IfOk result IsJoinedCapture }
    ensures refused { IfErr result (NoWholeBy (F.seen shelf.old) (F.seen shelf.new) (Some name.now)) }
{
    let file = find_packets(shelf, name)?;
    match join_file(alloc, shelf, file) {
        Ok(bytes) => Ok(bytes),
        Err(bad) => Err(end_at(bad)),
    }
}

// Runs the script over the records of a joined capture.
fn run_over<R: Threads + Sync, K: Sink, G: Gate>(
    means: &Means<R, G>,
    script: Script,
    joined: HeldCapture,
    out: &mut K,
    ends: &mut Ends,
) -> RunEnd
    requires sincere { ⟦<Catalogue as Sincere>⟧.sincere script.setup.catalogue }
    requires valid { AreValid script.segments }
    requires few { command_lines script.segments ≤ MAX_PLACE }
    requires orderly { IsOrderly (script_seen script) }
    requires fresh { IsFresh joined.reader }
    ensures { RunsJoined (script_seen script) joined.source joined.reader
        (K.seen out.old) (⟦<Ends as EndsSeen>⟧.all ends.old)
        (K.seen out.new) (⟦<Ends as EndsSeen>⟧.all ends.new) result }
{
    let HeldCapture { mut source, reader } = joined;
    let Means { rt, alloc, gate } = means;
    run_script(
        *rt,
        *alloc,
        script,
        Some(reader),
        &mut source,
        out,
        ends,
        *gate,
    )
}

/// Does `join SCRIPT PACKETS`, and answers the status, which has its cause. The joined capture is held in memory.
pub fn join_command<R: Threads + Sync, F: Shelf, K: Sink, G: Gate>(
    means: &Means<R, G>,
    names: &RunNames<'_, Text>,
    shelf: &mut F,
    out: &mut K,
    natives: Natives,
    ends: &mut Ends,
) -> u8
    requires sincere { ⟦<Natives as Sincere>⟧.sincere natives }
    ensures { IsJoinStatus (natives_seen natives)
        (outside (F.seen shelf.old) (K.seen out.old) (⟦<Ends as EndsSeen>⟧.all ends.old))
        (outside (F.seen shelf.new) (K.seen out.new) (⟦<Ends as EndsSeen>⟧.all ends.new))
        names.now.script.now names.now.packets.now result }
{
    let script = match script_of(means.alloc, shelf, names.script, natives) {
        Ok(script) => script,
        Err(end) => return stop(out, end),
    };
    let bytes = match joined_of(means.alloc, shelf, names.packets) {
        Ok(bytes) => bytes,
        Err(end) => return stop(out, end),
    };
    let joined = match behind_header(means.alloc, bytes) {
        Ok(joined) => joined,
        Err(end) => return stop(out, end),
    };
    let ended = run_over(means, script, joined, out, ends);
    stop(out, end_of(ended))
}
