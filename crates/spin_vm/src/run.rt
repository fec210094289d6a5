//! Whole traces.

ghost use Rattle.std.specs.Prelude.{◌≡◌, ◌≤◌, [], IsTrue};
ghost use Rattle.spin_word.specs.declared.command.TheConstants.{MAX_PLACE};
ghost use Rattle.spin_script.specs.Scripts.{script_seen};
ghost use Rattle.spin_script.specs.Soundness.{AreValid, command_lines};
ghost use Rattle.spin_vm.specs.Traces.{AreGood, trace_cause_number};
ghost use Rattle.spin_vm.specs.Scripts.{is_suited};
ghost use Rattle.spin_vm.specs.Ends.{TraceEndsBy, TraceCountsBy};
ghost use Rattle.spin_vm.specs.Inner.Endings.{OutputEnds, OutputCounts, end_of};

use crate::cause::TraceCause;
use crate::end::VmEnd;
use crate::line::Trace;
use crate::read::{TraceFault, read_trace};
use crate::version::last_version;
use crate::writing::{Stop, write_output};
use spin_code::Sincere;
use spin_objects::Catalogue;
use spin_outside::Sink;
use spin_script::Script;
use std::alloc::Global;

// The number of a cause.
fn cause_number(cause: TraceCause) -> u8
    ensures { result ≡ trace_cause_number cause }
{
    cause as u8
}

// Writes the output of a trace.
fn run_lines<K: Sink>(
    alloc: Global,
    script: &Script,
    trace: &Trace,
    out: &mut K,
) -> Result<(), Stop>
    requires suited { IsTrue (is_suited (script_seen script.now)) }
    requires sincere { ⟦<Catalogue as Sincere>⟧.sincere script.now.setup.catalogue }
    requires valid { AreValid script.now.segments }
    requires commands { command_lines script.now.segments ≤ MAX_PLACE }
    requires good { AreGood [] trace.now }
    ensures end { OutputEnds (script_seen script.now) trace.now (K.seen out.old) (K.seen out.new)
        result }
    ensures counts { OutputCounts (K.seen out.old) (K.seen out.new) result }
{
    let version = last_version(alloc, script)?;
    write_output(alloc, &script.setup, &version, trace.as_slice(), out)
}

// How a trace ends whose output ends so.
fn end_of(written: Result<(), Stop>) -> VmEnd
    ensures { result ≡ end_of written }
{
    match written {
        Ok(()) => VmEnd::Whole,
        Err(Stop::WriteFault) => VmEnd::WriteFault,
        Err(Stop::NoMemory) => VmEnd::NoMemory,
    }
}

/// Runs a trace over the dispatcher of a script, and writes what its accesses and unmappings come to.
///
/// The script's commands are applied in order, and a refused one changes nothing. The trace is read whole before
/// anything is written: [`VmEnd::Trace`] comes exactly where it isn't in the language, with its first bad line and the
/// number of the first cause there, and the sink is as it was. An access to a mapped page has its frame. Every other
/// one has a fault, which is raised at the state that the script leaves, as event 0 where the page isn't mapped, 1
/// where it lies in no region, and 2 where it is written to and may only be read; its arguments are the space, the
/// page, and 1 for a write or 0 for a read. A page that isn't mapped is mapped to the frame that the reply gives as its
/// value or default, if that is below 65,536. Sends and jobs of a raise are written and go no further.
///
/// [`VmEnd::WriteFault`] comes only where the sink's count of faults rose; the sink has then taken a front of the
/// output, and not all of it, and so it has after want of memory.
///
/// The script is suited, and one that [`read_script`](spin_script::read_script) gives; the catalogue's objects do what
/// they were handed in with. Beside the raises it takes time linear in the trace and in what is written, times
/// logarithmic in the regions of a space and its mapped pages.
pub fn run_trace<K: Sink>(alloc: Global, script: Script, trace: &[u8], out: &mut K) -> VmEnd
    requires suited { IsTrue (is_suited (script_seen script)) }
    requires sincere { ⟦<Catalogue as Sincere>⟧.sincere script.setup.catalogue }
    requires valid { AreValid script.segments }
    requires commands { command_lines script.segments ≤ MAX_PLACE }
    ensures end { TraceEndsBy (script_seen script) trace.now (K.seen out.old) (K.seen out.new) result }
    ensures counts { TraceCountsBy (K.seen out.old) (K.seen out.new) result }
{
    let lines = match read_trace(alloc, trace) {
        Ok(lines) => lines,
        Err(TraceFault::Bad { line, cause }) => {
            return VmEnd::Trace {
                line,
                cause: cause_number(cause),
            };
        }
        Err(TraceFault::NoMemory) => return VmEnd::NoMemory,
    };
    end_of(run_lines(alloc, &script, &lines, out))
}
