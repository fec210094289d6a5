//! The command `vm`: a trace of memory accesses, over a script whose events are translation faults.

ghost use Rattle.std.specs.Prelude.{◌≡◌, true, List, IfOk, IfErr};
ghost use Rattle.spin_endpoint.specs.Named.{NamedEnd};
ghost use Rattle.spin_script.specs.Scripts.{script_seen};
ghost use Rattle.spin_script.specs.States.{natives_seen};
ghost use Rattle.spin_vm.specs.Scripts.{is_suited};
ghost use Rattle.spin_inputs.specs.Loading.{IsContent};
ghost use Rattle.spin_inputs.specs.Outside.{outside};
ghost use Rattle.spin_inputs.specs.Shelves.{ShelfStood};
ghost use Rattle.spin_commands.specs.Vm.{vm_end, NoTraceBy, NoSuitedTraceBy, IsVmStatus};

use spin_code::Sincere;
use spin_inputs::{End, Input, LoadFault, TEXT_LIMIT, load, script_of, stop};
use spin_objects::Natives;
use spin_outside::{Shelf, Sink};
use spin_script::Script;
use spin_values::{Octets, Text};
use spin_vm::{TraceCause, VmEnd, is_suited, run_trace};
use std::alloc::Global;

// The text of the trace of that name. One that is too large is no trace.
fn trace_of<F: Shelf>(alloc: Global, shelf: &mut F, name: &Text) -> Result<Octets, End>
    ensures stood { IfOk result (λ _. ShelfStood (F.seen shelf.old) (F.seen shelf.new)) }
    ensures read { IfOk result (λ text. IsContent (F.seen shelf.old).files name.now text) }
    ensures refused { IfErr result (NoTraceBy (F.seen shelf.old) (F.seen shelf.new) name.now) }
{
    match load(alloc, shelf, name, TEXT_LIMIT) {
        Ok(text) => Ok(text),
        Err(LoadFault::Absent) => Err(End::Absent(Input::Trace)),
        Err(LoadFault::Failed) => Err(End::Unread(Input::Trace)),
        Err(LoadFault::TooLarge) => Err(End::Trace {
            line: 0,
            cause: TraceCause::TooLarge as u8,
        }),
        Err(LoadFault::NoMemory) => Err(End::NoMemory),
    }
}

// The text of the trace of that name, where the script is one for traces.
fn suited_trace<F: Shelf>(
    alloc: Global,
    script: &Script,
    shelf: &mut F,
    name: &Text,
) -> Result<Octets, End>
    ensures suited { IfOk result (λ _. is_suited (script_seen script.now) ≡ true) }
    ensures stood { IfOk result (λ _. ShelfStood (F.seen shelf.old) (F.seen shelf.new)) }
    ensures read { IfOk result (λ text. IsContent (F.seen shelf.old).files name.now text) }
    ensures refused { IfErr result (NoSuitedTraceBy (is_suited (script_seen script.now))
        (F.seen shelf.old) (F.seen shelf.new) name.now) }
{
    if !is_suited(script) {
        return Err(End::Unsuited);
    }
    trace_of(alloc, shelf, name)
}

// The end of a call whose trace ended so.
fn end_of(ended: VmEnd) -> End
    ensures { result ≡ vm_end ended }
{
    match ended {
        VmEnd::Whole => End::Whole,
        VmEnd::Trace { line, cause } => End::Trace { line, cause },
        VmEnd::WriteFault => End::WriteFault,
        VmEnd::NoMemory => End::NoMemory,
    }
}

/// Does `vm SCRIPT TRACE`, and answers the status, which has its cause. It has no endpoints: what is sent goes no
/// further than the output. Script and trace are held in memory.
pub fn vm_command<F: Shelf, K: Sink>(
    alloc: Global,
    name: &Text,
    trace: &Text,
    shelf: &mut F,
    out: &mut K,
    natives: Natives,
) -> u8
    requires sincere { ⟦<Natives as Sincere>⟧.sincere natives }
    ensures { (ends : List NamedEnd) → IsVmStatus (natives_seen natives)
        (outside (F.seen shelf.old) (K.seen out.old) ends)
        (outside (F.seen shelf.new) (K.seen out.new) ends)
        name.now trace.now result }
{
    let script = match script_of(alloc, shelf, name, natives) {
        Ok(script) => script,
        Err(end) => return stop(out, end),
    };
    let text = match suited_trace(alloc, &script, shelf, trace) {
        Ok(text) => text,
        Err(end) => return stop(out, end),
    };
    let ended = run_trace(alloc, script, text.as_slice(), out);
    stop(out, end_of(ended))
}
