//! The command `run`: a script, over a capture or none.

ghost use Rattle.std.specs.Prelude.{◌≡◌, ◌≤◌, IfOk, IfErr, IfSome};
ghost use Rattle.spin_word.specs.declared.command.TheConstants.{MAX_PLACE};
ghost use Rattle.spin_pcap.specs.Passing.{IsFresh};
ghost use Rattle.spin_script.specs.States.{natives_seen};
ghost use Rattle.spin_script.specs.Scripts.{script_seen};
ghost use Rattle.spin_script.specs.Segments.{IsOrderly};
ghost use Rattle.spin_script.specs.Soundness.{AreValid, command_lines};
ghost use Rattle.spin_inputs.specs.Captures.{AreOpened, NoCaptureBy};
ghost use Rattle.spin_cli.specs.Inner.Running.{RunsOver};
ghost use Rattle.spin_inputs.specs.Outside.{outside};
ghost use Rattle.spin_cli.specs.Run.{end_of, IsRunStatus};

use crate::commands::{Means, RunNames};
use spin_code::Sincere;
use spin_endpoint::{Ends, EndsSeen};
use spin_inputs::{Capture, End, Input, open, script_of, stop};
use spin_objects::{Catalogue, Natives};
use spin_outside::{Gate, Shelf, ShelfSource, Sink};
use spin_pcap::Reader;
use spin_run::{RunEnd, run_script};
use spin_script::Script;
use spin_values::Text;
use std::alloc::Global;
use std::thread::Threads;

/// The end of a call whose run ended so.
pub fn end_of(ended: RunEnd) -> End
    ensures { result ≡ end_of ended }
{
    match ended {
        RunEnd::Whole => End::Whole,
        RunEnd::Capture { number, fault } => End::Capture { number, fault },
        RunEnd::ReadFault => End::Unread(Input::Packets),
        RunEnd::WriteFault => End::WriteFault,
        RunEnd::NoMemory => End::NoMemory,
        RunEnd::Endpoint(number) => End::Endpoint(number),
    }
}

// The file of that name and what reads its records, if one is named.
fn capture_of<F: Shelf>(
    alloc: Global,
    shelf: &mut F,
    packets: &Option<Text>,
) -> Result<(u32, Option<Reader>), End>
    ensures opened { IfOk result (λ opened.
        AreOpened (F.seen shelf.old) (F.seen shelf.new) packets.now opened.0 opened.1) }
    ensures refused { IfErr result
        (NoCaptureBy (F.seen shelf.old) (F.seen shelf.new) packets.now) }
{
    let Some(name) = packets else {
        return Ok((0, None));
    };
    let Capture { file, reader } = open(alloc, shelf, name)?;
    Ok((file, Some(reader)))
}

// Runs the script over the records that the reader finds in the file. Without a reader no file is read.
fn run_over<R: Threads + Sync, F: Shelf, K: Sink, G: Gate>(
    means: &Means<R, G>,
    script: Script,
    opened: (u32, Option<Reader>),
    shelf: &mut F,
    out: &mut K,
    ends: &mut Ends,
) -> RunEnd
    requires sincere { ⟦<Catalogue as Sincere>⟧.sincere script.setup.catalogue }
    requires valid { AreValid script.segments }
    requires few { command_lines script.segments ≤ MAX_PLACE }
    requires orderly { IsOrderly (script_seen script) }
    requires fresh { IfSome opened.1 IsFresh }
    ensures { RunsOver (script_seen script) opened.0 opened.1
        (outside (F.seen shelf.old) (K.seen out.old) (⟦<Ends as EndsSeen>⟧.all ends.old))
        (outside (F.seen shelf.new) (K.seen out.new) (⟦<Ends as EndsSeen>⟧.all ends.new)) result }
{
    let (file, reader) = opened;
    let mut source = ShelfSource { shelf, file };
    let Means { rt, alloc, gate } = means;
    run_script(*rt, *alloc, script, reader, &mut source, out, ends, *gate)
}

/// Does `run SCRIPT` or `run SCRIPT PACKETS`, and answers the status, which has its cause.
pub fn run_command<R: Threads + Sync, F: Shelf, K: Sink, G: Gate>(
    means: &Means<R, G>,
    names: &RunNames<'_, Option<Text>>,
    shelf: &mut F,
    out: &mut K,
    natives: Natives,
    ends: &mut Ends,
) -> u8
    requires sincere { ⟦<Natives as Sincere>⟧.sincere natives }
    ensures { IsRunStatus (natives_seen natives)
        (outside (F.seen shelf.old) (K.seen out.old) (⟦<Ends as EndsSeen>⟧.all ends.old))
        (outside (F.seen shelf.new) (K.seen out.new) (⟦<Ends as EndsSeen>⟧.all ends.new))
        names.now.script.now names.now.packets.now result }
{
    let script = match script_of(means.alloc, shelf, names.script, natives) {
        Ok(script) => script,
        Err(end) => return stop(out, end),
    };
    let opened = match capture_of(means.alloc, shelf, names.packets) {
        Ok(opened) => opened,
        Err(end) => return stop(out, end),
    };
    let ended = run_over(means, script, opened, shelf, out, ends);
    stop(out, end_of(ended))
}
