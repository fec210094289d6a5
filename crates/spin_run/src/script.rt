//! Whole runs of scripts.

ghost use Rattle.std.specs.Prelude.{◌≡◌, ◌≤◌, ℕ, length, IfSome};
ghost use Rattle.spin_word.specs.declared.command.TheConstants.{MAX_PLACE};
ghost use Rattle.spin_pcap.specs.Passing.{IsFresh};
ghost use Rattle.spin_table.specs.SetupOf.{data_of};
ghost use Rattle.spin_script.specs.Scripts.{script_seen};
ghost use Rattle.spin_script.specs.Segments.{IsOrderly};
ghost use Rattle.spin_script.specs.Soundness.{AreValid, command_lines};
ghost use Rattle.spin_run.specs.Ends.{seen, EndsBy, CountsBy};
ghost use Rattle.spin_run.specs.Records.{room_of, HasRecords};
ghost use Rattle.spin_run.specs.Segments.{place_of, state_of};
ghost use Rattle.spin_run.specs.Inner.Steps.{setting, script_in, RunsAll, RunsScript, WalksBy, ResultCounts};
ghost use Rattle.spin_run.specs.Inner.Course.{AreReadyIn, setting_in};
ghost use Rattle.spin_run.specs.Inner.Outside.{seen_by, moment_by, HoldsSame};

use crate::course::{Course, Means};
use crate::end::RunEnd;
use crate::ending::finish;
use crate::lanes::Lanes;
use crate::one::run_one;
use crate::outside::Outside;
use crate::telling::{Report, Telling};
use spin_code::Sincere;
use spin_endpoint::{Ends, EndsSeen};
use spin_objects::Catalogue;
use spin_outside::{Gate, Sink, Source};
use spin_pcap::Reader;
use spin_script::{Script, Segments};
use spin_seat::Hub;
use spin_table::Setup;
use spin_values::Text;
use std::alloc::Global;
use std::thread::Threads;

// Runs the segments one after another over lanes that are ready and know no row, and tells each. It answers how many
// commands were accepted.
fn run_each<R: Threads + Sync, S: Source, T: Telling, G: Gate>(
    course: &Course<R, G>,
    lanes: &mut Lanes,
    outside: &mut Outside<S, T>,
    segments: &Segments,
) -> Result<u16, RunEnd>
    requires sincere { ⟦<Catalogue as Sincere>⟧.sincere course.now.hub.now.setup.catalogue }
    requires ready { AreReadyIn course.now lanes.old }
    requires start { place_of (data_of course.now.hub.now.setup) lanes.old ≡ 0 }
    requires valid { AreValid segments.now }
    requires commands { command_lines segments.now ≤ MAX_PLACE }
    requires orderly { let s = setting_in course.now (length lanes.old) in
        IsOrderly (script_in s segments.now 0) }
    ensures end { let s = setting_in course.now (length lanes.old) in
        let all = ⟦<Ends as EndsSeen>⟧.all in
        let before = moment_by S.seen T.seen all (state_of s.setup lanes.old) outside.old in
        let after = seen_by S.seen T.seen all outside.new in
        RunsAll s segments.now before (T.counts outside.old.out.now)
        outside.new.capture.now after (T.counts outside.new.out.now) result }
    ensures keep { (S.seen outside.new.source.now).keep ≡ (S.seen outside.old.source.now).keep }
    ensures same { HoldsSame T.reference outside.old outside.new }
    ensures counts { let look = seen_by S.seen T.seen ⟦<Ends as EndsSeen>⟧.all in
        ResultCounts course.now.names.now (look outside.old) (look outside.new) result }
{
    for number in 0..segments.len() {
        let segment = segments.get(number);
        run_one(course, lanes, outside, number, segment)?;
    }
    Ok(lanes.place(course.hub))
}

// Begins, makes a lane for each of so many seats, and runs the segments over them. It answers how many commands were
// accepted. After want of memory nothing but the beginning was told. The names are those of the endpoints by number.
fn run_over<R: Threads + Sync, S: Source, T: Telling, G: Gate>(
    means: &Means<R, G>,
    setup: Setup,
    lane_count: u8,
    names: &[Text],
    segments: &Segments,
    outside: &mut Outside<S, T>,
) -> Result<u16, RunEnd>
    requires sincere { ⟦<Catalogue as Sincere>⟧.sincere setup.catalogue }
    requires valid { AreValid segments.now }
    requires commands { command_lines segments.now ≤ MAX_PLACE }
    requires orderly { let s = setting (data_of setup) lane_count names.now in
        IsOrderly (script_in s segments.now 0) }
    requires fresh { IfSome outside.old.capture.now IsFresh }
    ensures end { let s = setting (data_of setup) lane_count names.now in
        let look = seen_by S.seen T.seen ⟦<Ends as EndsSeen>⟧.all in
        (version : ℕ) → RunsScript (script_in s segments.now version)
        outside.old.capture.now (look outside.old) (T.counts outside.old.out.now)
        outside.new.capture.now (look outside.new) (T.counts outside.new.out.now) result }
    ensures keep { (S.seen outside.new.source.now).keep ≡ (S.seen outside.old.source.now).keep }
    ensures same { HoldsSame T.reference outside.old outside.new }
    ensures counts { let look = seen_by S.seen T.seen ⟦<Ends as EndsSeen>⟧.all in
        ResultCounts names.now (look outside.old) (look outside.new) result }
{
    if let Err(_) = outside.out.begin() {
        return Err(RunEnd::WriteFault);
    }
    let (hub, seats) = Hub::new(means.alloc, setup, lane_count)?;
    let mut lanes = Lanes::of_seats(means.alloc, &hub, seats)?;
    let course = Course {
        rt: means.rt,
        alloc: means.alloc,
        gate: means.gate,
        hub: &hub,
        names,
    };
    run_each(&course, &mut lanes, outside, segments)
}

// Takes the script apart, and runs its segments. It answers how many commands were accepted.
fn run_segments<R: Threads + Sync, S: Source, T: Telling, G: Gate>(
    means: &Means<R, G>,
    script: Script,
    outside: &mut Outside<S, T>,
) -> Result<u16, RunEnd>
    requires sincere { ⟦<Catalogue as Sincere>⟧.sincere script.setup.catalogue }
    requires valid { AreValid script.segments }
    requires commands { command_lines script.segments ≤ MAX_PLACE }
    requires orderly { IsOrderly (script_seen script) }
    requires fresh { IfSome outside.old.capture.now IsFresh }
    ensures end { let look = seen_by S.seen T.seen ⟦<Ends as EndsSeen>⟧.all in
        RunsScript (script_seen script)
        outside.old.capture.now (look outside.old) (T.counts outside.old.out.now)
        outside.new.capture.now (look outside.new) (T.counts outside.new.out.now) result }
    ensures keep { (S.seen outside.new.source.now).keep ≡ (S.seen outside.old.source.now).keep }
    ensures same { HoldsSame T.reference outside.old outside.new }
    ensures counts { let look = seen_by S.seen T.seen ⟦<Ends as EndsSeen>⟧.all in
        ResultCounts (script_seen script).endpoints (look outside.old) (look outside.new) result }
{
    let Script {
        setup,
        endpoints,
        lanes,
        segments,
        ..
    } = script;
    let names = endpoints.as_slice();
    run_over(means, setup, lanes, names, &segments, outside)
}

// Runs a script whole, reads the capture to its end, and tells what it comes to.
fn run_whole<R: Threads + Sync, S: Source, T: Telling, G: Gate>(
    means: &Means<R, G>,
    script: Script,
    outside: &mut Outside<S, T>,
) -> RunEnd
    requires sincere { ⟦<Catalogue as Sincere>⟧.sincere script.setup.catalogue }
    requires valid { AreValid script.segments }
    requires commands { command_lines script.segments ≤ MAX_PLACE }
    requires orderly { IsOrderly (script_seen script) }
    requires fresh { IfSome outside.old.capture.now IsFresh }
    ensures end { let look = seen_by S.seen T.seen ⟦<Ends as EndsSeen>⟧.all in
        let capture = outside.old.capture.now in
        HasRecords capture (S.seen outside.old.source.now)
        (λ frames rest. WalksBy (script_seen script) (room_of capture) frames rest
        (look outside.old) (T.counts outside.old.out.now)
        (look outside.new) (T.counts outside.new.out.now) result) }
    ensures keep { (S.seen outside.new.source.now).keep ≡ (S.seen outside.old.source.now).keep }
    ensures same { HoldsSame T.reference outside.old outside.new }
    ensures counts { let look = seen_by S.seen T.seen ⟦<Ends as EndsSeen>⟧.all in
        CountsBy (script_seen script).endpoints (look outside.old) (look outside.new) result }
{
    match run_segments(means, script, outside) {
        Ok(length) => match finish(
            means.alloc,
            length,
            outside.capture,
            outside.source,
            outside.out,
        ) {
            Ok(()) => RunEnd::Whole,
            Err(end) => end,
        },
        Err(end) => end,
    }
}

// The same, where what is outside is handed in one by one.
pub(crate) fn walk<R: Threads + Sync, S: Source, T: Telling, G: Gate>(
    means: &Means<R, G>,
    script: Script,
    capture: &mut Option<Reader>,
    source: &mut S,
    out: &mut T,
    ends: &mut Ends,
) -> RunEnd
    requires sincere { ⟦<Catalogue as Sincere>⟧.sincere script.setup.catalogue }
    requires valid { AreValid script.segments }
    requires commands { command_lines script.segments ≤ MAX_PLACE }
    requires orderly { IsOrderly (script_seen script) }
    requires fresh { IfSome capture.old IsFresh }
    ensures end { let before = seen (S.seen source.old) (T.seen out.old)
        (⟦<Ends as EndsSeen>⟧.all ends.old) in
        let after = seen (S.seen source.new) (T.seen out.new)
        (⟦<Ends as EndsSeen>⟧.all ends.new) in
        HasRecords capture.old (S.seen source.old)
        (λ frames rest. WalksBy (script_seen script) (room_of capture.old) frames rest
        before (T.counts out.old) after (T.counts out.new) result) }
    ensures keep { (S.seen source.new).keep ≡ (S.seen source.old).keep }
    ensures same { T.reference out.new ≡ T.reference out.old }
    ensures counts { let before = seen (S.seen source.old) (T.seen out.old)
        (⟦<Ends as EndsSeen>⟧.all ends.old) in
        let after = seen (S.seen source.new) (T.seen out.new)
        (⟦<Ends as EndsSeen>⟧.all ends.new) in
        CountsBy (script_seen script).endpoints before after result }
{
    let mut outside = Outside {
        capture,
        source,
        out,
        ends,
    };
    run_whole(means, script, &mut outside)
}

/// Runs a script whole: writes the report's first line; then segment by segment retires its endpoints, reads the
/// records that its packet lines want, runs its lanes side by side, does its jobs, makes its sends in the order of its
/// entries and then of its jobs, and writes its text by few calls; and last reads the capture to its end and writes the
/// last line.
///
/// A run stops at the first thing that fails, and [`RunEnd`] says which. What has been done by then stays: whole lines
/// are written, but where the sink failed. A failed read comes only where the source's count of faults rose, a failed
/// write only where the sink's did, and a failed endpoint only where its own count did. Without a capture no read
/// fails: one fails only in a segment that wants a record more, or behind all segments.
///
/// The capture is read as the segments need it: where it stops in a segment, and the capture has all records that the
/// segments up to this one want, no more than 65,536 bytes past these were taken, those among them that the reader held
/// from the start.
///
/// The records are those that the source tells. Of a source that tells nothing the clause says that there are records
/// of which all this holds, and so it speaks of the sink and the endpoints whatever the source tells.
///
/// The script is one that [`read_script`](spin_script::read_script) gives, the capture is as
/// [`Reader::start`](spin_pcap::Reader::start) left it, and the catalogue's objects do what they were handed in with.
pub fn run_script<R: Threads + Sync, S: Source, K: Sink, G: Gate>(
    rt: &R,
    alloc: Global,
    script: Script,
    capture: Option<Reader>,
    source: &mut S,
    out: &mut K,
    ends: &mut Ends,
    gate: &G,
) -> RunEnd
    requires sincere { ⟦<Catalogue as Sincere>⟧.sincere script.setup.catalogue }
    requires valid { AreValid script.segments }
    requires commands { command_lines script.segments ≤ MAX_PLACE }
    requires orderly { IsOrderly (script_seen script) }
    requires fresh { IfSome capture IsFresh }
    ensures end { let before = seen (S.seen source.old) (K.seen out.old)
        (⟦<Ends as EndsSeen>⟧.all ends.old) in
        let after = seen (S.seen source.new) (K.seen out.new)
        (⟦<Ends as EndsSeen>⟧.all ends.new) in
        HasRecords capture (S.seen source.old)
        (λ frames rest.
        EndsBy (script_seen script) (room_of capture) frames rest before after result) }
    ensures keep { (S.seen source.new).keep ≡ (S.seen source.old).keep }
    ensures counts { let before = seen (S.seen source.old) (K.seen out.old)
        (⟦<Ends as EndsSeen>⟧.all ends.old) in
        let after = seen (S.seen source.new) (K.seen out.new)
        (⟦<Ends as EndsSeen>⟧.all ends.new) in
        CountsBy (script_seen script).endpoints before after result }
{
    let means = Means { rt, alloc, gate };
    let mut capture = capture;
    let mut report = Report { out };
    walk(&means, script, &mut capture, source, &mut report, ends)
}
