//! The top call: all that the program does.

ghost use Rattle.spin_script.specs.States.{natives_seen};
ghost use Rattle.spin_inputs.specs.declared.end.End.TheVariants as end;
ghost use Rattle.spin_cli.specs.Headline.{Headline, HeadlineJoined};
ghost use Rattle.spin_inputs.specs.Outside.{outside};
ghost use Rattle.spin_cli.specs.Statuses.{Call, IsCommandStatus, IsStatus, Row, KeepsTable};

use crate::commands::generate::gen_command;
use crate::commands::join::join_command;
use crate::commands::run::run_command;
use crate::commands::{Means, RunNames};
use spin_args::{Asked, read_words};
use spin_code::Sincere;
use spin_commands::{CheckNames, check_command, vm_command};
use spin_endpoint::{Ends, EndsSeen};
use spin_inputs::{End, stop};
use spin_objects::Natives;
use spin_outside::{Gate, Shelf, Sink};
use spin_values::{NoMemory, Text};
use std::alloc::Global;
use std::thread::Threads;

// Does the command that is asked for, and answers the status, which has its cause.
fn do_command<R: Threads + Sync, F: Shelf, K: Sink, G: Gate>(
    means: &Means<R, G>,
    asked: &Asked,
    shelf: &mut F,
    out: &mut K,
    natives: Natives,
    ends: &mut Ends,
) -> u8
    requires sincere { ⟦<Natives as Sincere>⟧.sincere natives }
    ensures { IsCommandStatus (natives_seen natives)
        (outside (F.seen shelf.old) (K.seen out.old) (⟦<Ends as EndsSeen>⟧.all ends.old))
        (outside (F.seen shelf.new) (K.seen out.new) (⟦<Ends as EndsSeen>⟧.all ends.new))
        asked.now result }
{
    match asked {
        Asked::Run { script, packets } => {
            let names = RunNames { script, packets };
            run_command(means, &names, shelf, out, natives, ends)
        }
        Asked::Gen { number } => gen_command(means, *number, out, natives, ends),
        Asked::Check {
            script,
            report,
            packets,
        } => {
            let names = CheckNames {
                script,
                report,
                packets,
            };
            check_command(means.alloc, &names, shelf, out, natives, ends)
        }
        Asked::Join { script, packets } => {
            let names = RunNames { script, packets };
            join_command(means, &names, shelf, out, natives, ends)
        }
        Asked::Vm { script, trace } => {
            vm_command(means.alloc, script, trace, shelf, out, natives)
        }
    }
}

// Does the command that the words ask for, and answers the status, which has its cause.
fn choose<R: Threads + Sync, F: Shelf, K: Sink, G: Gate>(
    means: &Means<R, G>,
    words: &[Text],
    shelf: &mut F,
    out: &mut K,
    natives: Natives,
    ends: &mut Ends,
) -> u8
    requires sincere { ⟦<Natives as Sincere>⟧.sincere natives }
    ensures { let call : Call = record {
      natives = natives_seen natives;
      words = words.now;
      before = outside (F.seen shelf.old) (K.seen out.old) (⟦<Ends as EndsSeen>⟧.all ends.old);
      after = outside (F.seen shelf.new) (K.seen out.new) (⟦<Ends as EndsSeen>⟧.all ends.new);
      status = result;
    } in
        IsStatus call }
{
    match read_words(means.alloc, words) {
        Ok(Some(asked)) => do_command(means, &asked, shelf, out, natives, ends),
        Ok(None) => stop(out, End::Usage),
        Err(NoMemory) => stop(out, End::NoMemory),
    }
}

/// The top call: does what the words ask for over the shelf, the sink and the endpoints, and answers the exit status.
///
/// The words are those of one command, `run SCRIPT`, `run SCRIPT PACKETS`, `gen NUMBER`, `check SCRIPT REPORT`,
/// `check SCRIPT REPORT PACKETS`, `join SCRIPT PACKETS` or `vm SCRIPT TRACE`; each is UTF-8, isn't empty, and doesn't
/// begin with `-`. Except under `gen`, the script is found, read and checked, and may name the natives that are handed
/// in. Then the capture, if one is named, is found and its header read; under `join` it is read whole, and its joined
/// capture takes its place, in memory. Then the script is run over it by [`run_script`](spin_run::run_script), its
/// lanes on threads, which writes the report and delivers what is sent to the endpoints. A stop ends the call at once,
/// so the status is that of the first that is met.
///
/// Under `check`, when the script is checked, the capture, if one is named, is read whole; then the report is found and
/// read, and [`check_report`](spin_check::check_report) judges whether it is that of a history of the script with that
/// capture and the endpoints that stand, which is written as `yes` or `no`. Under `vm`, when the script is checked, it
/// is looked at whether it is suited to traces; then the trace is found and read, and [`run_trace`](spin_vm::run_trace)
/// writes its output. Under both the endpoints are then as they were.
///
/// Under `gen` a script and a capture are made from the number by [`generate`](spin_gen::generate), in memory, and run
/// by [`run_summary`](spin_run::run_summary), which delivers as a run does and writes six lines in place of the report:
/// the number in decimal, however it was written, and the counts of the history. The shelf isn't looked at. The status
/// is 0, 5, 7 or 8, and after 7 and 8 nothing but the stop line was written.
///
/// | status | comes | line |
/// |---|---|---|
/// | 0 | the whole report, summary or output of a trace was written, and what was named was read to its end; under `check` the report is that of a history, and `yes` was written | none |
/// | 1 | exactly where the words have none of the forms | `usage: ..`, the words of every command |
/// | 2 | exactly where the script is read and is refused at line N for cause C | `stop 2 line N cause C` |
/// | 3 | exactly where record N of the capture is refused by fault F; record 0 is its header | `stop 3 record N fault F` |
/// | 4 | only where the shelf's count of faults rose | `stop 4 read` and `script`, `packets`, `report` or `trace` |
/// | 5 | only where the sink's count of faults rose | none |
/// | 6 | only where the shelf's count of absences rose | `stop 6` and `script`, `packets`, `report` or `trace` |
/// | 7 | want of memory | `stop 7 memory` |
/// | 8 | only where the count of endpoint P rose | `stop 8 endpoint P` |
/// | 9 | under `check`, exactly where the report is read and is that of no history; `no` was written | none |
/// | 10 | under `check`, exactly where the report is read and has more than 67,108,864 bytes | `stop 10 report` |
/// | 11 | under `vm`, exactly where the script is suited and the trace is read and is refused at line N for cause C | `stop 11 line N cause C` |
/// | 12 | under `vm`, exactly where the script is read and isn't suited | `stop 12 script` |
///
/// A stop line follows what was written before. A stop line that can't be written leaves the status. A stop before the
/// report began leaves the endpoints as they were. Of a script that isn't read, or is refused, at most 1,048,576 bytes and
/// 4,096 more are read. Under `run` the capture is read as the segments need it: after a
/// stop in a segment, where the capture has all records that the segments up to this one want, at most 65,536 bytes
/// past its header and these records were read.
pub fn spin<R: Threads + Sync, F: Shelf, K: Sink, G: Gate>(
    rt: &R,
    alloc: Global,
    words: &[Text],
    shelf: &mut F,
    out: &mut K,
    natives: Natives,
    ends: &mut Ends,
    gate: &G,
) -> u8
    // Each native does what it was handed in with.
    requires sincere { ⟦<Natives as Sincere>⟧.sincere natives }
    // The headline, for `run`: the script that was read is accepted, and is the one that its text says; what was written
    // is the report of one legal history of this script with the capture that is named; and each endpoint has received
    // exactly its sends of that history, until retired.
    ensures headline { let call : Call = record {
      natives = natives_seen natives;
      words = words.now;
      before = outside (F.seen shelf.old) (K.seen out.old) (⟦<Ends as EndsSeen>⟧.all ends.old);
      after = outside (F.seen shelf.new) (K.seen out.new) (⟦<Ends as EndsSeen>⟧.all ends.new);
      status = result;
    } in
        Headline call }
    // The same for `join`, with the joined capture.
    ensures headline_joined { let call : Call = record {
      natives = natives_seen natives;
      words = words.now;
      before = outside (F.seen shelf.old) (K.seen out.old) (⟦<Ends as EndsSeen>⟧.all ends.old);
      after = outside (F.seen shelf.new) (K.seen out.new) (⟦<Ends as EndsSeen>⟧.all ends.new);
      status = result;
    } in
        HeadlineJoined call }
    // 0: the report of a legal history that answers what the script asks, each once and in order, was written, or under
    // `gen` its summary, and each endpoint has received its sends of that history; under `check` the report that was
    // read is that of a legal history; under `vm` the output of the whole trace was written.
    ensures whole { let call : Call = record {
      natives = natives_seen natives;
      words = words.now;
      before = outside (F.seen shelf.old) (K.seen out.old) (⟦<Ends as EndsSeen>⟧.all ends.old);
      after = outside (F.seen shelf.new) (K.seen out.new) (⟦<Ends as EndsSeen>⟧.all ends.new);
      status = result;
    } in
        Row call end.Whole }
    // Each other status comes with its cause, and some come always where their cause holds.
    ensures table { let call : Call = record {
      natives = natives_seen natives;
      words = words.now;
      before = outside (F.seen shelf.old) (K.seen out.old) (⟦<Ends as EndsSeen>⟧.all ends.old);
      after = outside (F.seen shelf.new) (K.seen out.new) (⟦<Ends as EndsSeen>⟧.all ends.new);
      status = result;
    } in
        KeepsTable call }
{
    let means = Means { rt, alloc, gate };
    choose(&means, words, shelf, out, natives, ends)
}
