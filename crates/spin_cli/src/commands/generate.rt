//! The command `gen`: the script of a number, over the capture of that number, summed up.

ghost use Rattle.std.specs.Prelude.{◌≤◌, IfOk, Ok};
ghost use Rattle.spin_outside.specs.Seen.{ShelfSeen};
ghost use Rattle.spin_word.specs.declared.command.TheConstants.{MAX_PLACE};
ghost use Rattle.spin_pcap.specs.Passing.{IsFresh};
ghost use Rattle.spin_script.specs.States.{natives_seen};
ghost use Rattle.spin_script.specs.Language.{IsScript};
ghost use Rattle.spin_script.specs.Scripts.{script_seen};
ghost use Rattle.spin_script.specs.Segments.{IsOrderly};
ghost use Rattle.spin_script.specs.Soundness.{AreValid, command_lines};
ghost use Rattle.spin_gen.specs.Laws.{IsReadAsScript};
ghost use Rattle.spin_cli.specs.Gen.{IsGenStatus};
ghost use Rattle.spin_cli.specs.Inner.Making.{RunsMade};
ghost use Rattle.spin_inputs.specs.Outside.{outside};

use crate::commands::Means;
use crate::commands::run::end_of;
use spin_code::Sincere;
use spin_endpoint::{Ends, EndsSeen};
use spin_gen::{captures_are_read, generate, scripts_are_read};
use spin_inputs::{End, HeldCapture, behind_header, stop};
use spin_objects::{Catalogue, Natives};
use spin_outside::{Gate, Sink};
use spin_run::{RunEnd, run_summary};
use spin_script::{Script, ScriptFault, read_script};
use spin_values::NoMemory;
use std::alloc::Global;
use std::thread::Threads;

// Reads a script that was made, of which no line is bad.
fn made_script(alloc: Global, text: &[u8], natives: Natives) -> Result<Script, NoMemory>
    requires sincere { ⟦<Natives as Sincere>⟧.sincere natives }
    requires made { IsReadAsScript (natives_seen natives) text.now }
    ensures script { IfOk result
        (λ script. IsScript (natives_seen natives) text.now (Ok (script_seen script))) }
    ensures sincere { IfOk result
        (λ script. ⟦<Catalogue as Sincere>⟧.sincere script.setup.catalogue) }
    ensures valid { IfOk result (λ script. AreValid script.segments) }
    ensures few { IfOk result (λ script. command_lines script.segments ≤ MAX_PLACE) }
    ensures orderly { IfOk result (λ script. IsOrderly (script_seen script)) }
{
    match read_script(alloc, text, natives) {
        Ok(script) => Ok(script),
        Err(ScriptFault::NoMemory) => Err(NoMemory),
        Err(ScriptFault::Bad { .. }) => unreachable!(),
    }
}

// Runs the script over the records of the capture, and writes the summary with that number.
fn run_over<R: Threads + Sync, K: Sink, G: Gate>(
    means: &Means<R, G>,
    script: Script,
    capture: HeldCapture,
    number: u64,
    out: &mut K,
    ends: &mut Ends,
) -> RunEnd
    requires sincere { ⟦<Catalogue as Sincere>⟧.sincere script.setup.catalogue }
    requires valid { AreValid script.segments }
    requires few { command_lines script.segments ≤ MAX_PLACE }
    requires orderly { IsOrderly (script_seen script) }
    requires fresh { IsFresh capture.reader }
    ensures { RunsMade (script_seen script) number capture.source capture.reader
        (K.seen out.old) (⟦<Ends as EndsSeen>⟧.all ends.old)
        (K.seen out.new) (⟦<Ends as EndsSeen>⟧.all ends.new) result }
{
    let HeldCapture { mut source, reader } = capture;
    let Means { rt, alloc, gate } = means;
    run_summary(
        *rt,
        *alloc,
        script,
        Some(reader),
        &mut source,
        number,
        out,
        ends,
        *gate,
    )
}

/// Does `gen NUMBER`, and answers the status, which has its cause. Script and capture are made once, in memory.
pub fn gen_command<R: Threads + Sync, K: Sink, G: Gate>(
    means: &Means<R, G>,
    number: u64,
    out: &mut K,
    natives: Natives,
    ends: &mut Ends,
) -> u8
    requires sincere { ⟦<Natives as Sincere>⟧.sincere natives }
    // whatever the shelf is, it stays so
    ensures { (shelf : ShelfSeen) → IsGenStatus (natives_seen natives)
        (outside shelf (K.seen out.old) (⟦<Ends as EndsSeen>⟧.all ends.old))
        (outside shelf (K.seen out.new) (⟦<Ends as EndsSeen>⟧.all ends.new))
        number result }
{
    let made = match generate(means.alloc, number) {
        Ok(made) => made,
        Err(NoMemory) => return stop(out, End::NoMemory),
    };
    // No line of the script is bad, and the capture is whole.
    scripts_are_read();
    captures_are_read();
    let script = match made_script(means.alloc, made.script.as_slice(), natives) {
        Ok(script) => script,
        Err(NoMemory) => return stop(out, End::NoMemory),
    };
    let capture = match behind_header(means.alloc, made.capture) {
        Ok(capture) => capture,
        Err(end) => return stop(out, end),
    };
    let ended = run_over(means, script, capture, number, out, ends);
    stop(out, end_of(ended))
}
