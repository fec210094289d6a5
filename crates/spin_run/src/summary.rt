//! Whole runs of scripts of which a summary is written, and no report.

ghost use Rattle.std.specs.Prelude.{◌≡◌, ◌≤◌, IfSome};
ghost use Rattle.spin_word.specs.declared.command.TheConstants.{MAX_PLACE};
ghost use Rattle.spin_pcap.specs.Passing.{IsFresh};
ghost use Rattle.spin_text.specs.Words.{text_of};
ghost use Rattle.spin_script.specs.Scripts.{script_seen};
ghost use Rattle.spin_script.specs.Segments.{IsOrderly};
ghost use Rattle.spin_script.specs.Soundness.{AreValid, command_lines};
ghost use Rattle.spin_run.specs.Ends.{seen, CountsBy};
ghost use Rattle.spin_run.specs.Records.{room_of, HasRecords};
ghost use Rattle.spin_run.specs.Summaries.{SumsUpBy, summary_lines};
ghost use Rattle.spin_run.specs.Inner.Tallies.{Tells, TellsByCount};

use crate::course::Means;
use crate::end::RunEnd;
use crate::script::walk;
use crate::tally::Tally;
use spin_code::Sincere;
use spin_endpoint::{Ends, EndsSeen};
use spin_objects::Catalogue;
use spin_outside::{Gate, Sink, Source, write_all};
use spin_pcap::Reader;
use spin_script::Script;
use std::alloc::Global;
use std::thread::Threads;

// Makes the six lines, and writes them by one call.
fn write_summary<K: Sink>(
    alloc: Global,
    tally: &Tally,
    number: u64,
    out: &mut K,
) -> Result<(), RunEnd>
    ensures told { Tells (K.seen out.old) (K.seen out.new)
        (text_of (summary_lines number tally.now)) result }
    ensures cause { TellsByCount (K.seen out.old).faults (K.seen out.new).faults result }
{
    let text = tally.summary(alloc, number)?;
    match write_all(out, text.as_slice()) {
        Ok(()) => Ok(()),
        Err(_) => Err(RunEnd::WriteFault),
    }
}

/// Runs a script whole as [`run_script`](crate::run_script) does, deliveries too, and writes six lines in place of the
/// report: the number that the script was made from; how many entries the history has; how many of its commands were
/// accepted and how many refused; and how many steps of all entries run a handler and how many send. Steps of jobs
/// aren't counted.
///
/// After [`RunEnd::WriteFault`] a front of these lines was written, and not all of them; after every other stop nothing
/// was. The stops are those of a run that writes a report, but for the writing. Here want of memory is also a count of
/// 2^64 or more.
///
/// What is asked of script, capture and catalogue is what `run_script` asks.
pub fn run_summary<R: Threads + Sync, S: Source, K: Sink, G: Gate>(
    rt: &R,
    alloc: Global,
    script: Script,
    capture: Option<Reader>,
    source: &mut S,
    number: u64,
    out: &mut K,
    ends: &mut Ends,
    gate: &G,
) -> RunEnd
    requires sincere { ⟦<Catalogue as Sincere>⟧.sincere script.setup.catalogue }
    requires valid { AreValid script.segments }
    requires commands { command_lines script.segments ≤ MAX_PLACE }
    requires orderly { IsOrderly (script_seen script) }
    requires fresh { IfSome capture IsFresh }
    ensures end { let before = seen (S.seen source.old) (K.seen out.old)
        (⟦<Ends as EndsSeen>⟧.all ends.old) in
        let after = seen (S.seen source.new) (K.seen out.new)
        (⟦<Ends as EndsSeen>⟧.all ends.new) in
        HasRecords capture (S.seen source.old)
        (λ frames rest.
        SumsUpBy (script_seen script) (room_of capture) number frames rest before after result) }
    ensures keep { (S.seen source.new).keep ≡ (S.seen source.old).keep }
    ensures counts { let before = seen (S.seen source.old) (K.seen out.old)
        (⟦<Ends as EndsSeen>⟧.all ends.old) in
        let after = seen (S.seen source.new) (K.seen out.new)
        (⟦<Ends as EndsSeen>⟧.all ends.new) in
        CountsBy (script_seen script).endpoints before after result }
{
    let means = Means { rt, alloc, gate };
    let mut capture = capture;
    let mut tally = Tally::new();
    let ended = walk(&means, script, &mut capture, source, &mut tally, ends);
    if ended != RunEnd::Whole {
        return ended;
    }
    match write_summary(alloc, &tally, number, out) {
        Ok(()) => RunEnd::Whole,
        Err(end) => end,
    }
}
