//! The records of a capture: those that the packet lines of a segment take, and the rest.

ghost use Rattle.std.specs.Prelude.{◌≡◌, ◌∷◌, List, [], ℕ, Option, Result, Ok};
ghost use Rattle.spin_run.specs.Inner.Reading.{stop_of, CountsOn, GivesNext, GivesFrames, GivesRest, ReadsByCount};
ghost use Rattle.spin_run.specs.Inner.Reading.{HasTaken, Reads, TakesFrames};
ghost use Rattle.spin_run.specs.Records.{HasRecords};

use crate::end::RunEnd;
use spin_outside::Source;
use spin_pcap::{BadRecord, Frames, Next, PcapFault, Reader};
use spin_values::Octets;
use std::alloc::Global;

// Why reading stops at a fault of the capture's record of that number.
fn stop_at(number: u32, fault: PcapFault) -> RunEnd
    ensures { result ≡ stop_of number fault }
{
    RunEnd::from(BadRecord::at(number, fault))
}

// Replaces the frame by the bytes of the next record. Without a capture it is the end.
fn next_record<S: Source>(
    capture: &mut Option<Reader>,
    source: &mut S,
    frame: &mut Octets,
) -> Result<Next, RunEnd>
    ensures answer { Reads capture.old (S.seen source.old) capture.new (S.seen source.new) result
        (GivesNext capture.old (S.seen source.old) capture.new (S.seen source.new) frame.new result) }
    ensures counted { result ≡ Ok Next.Packet → CountsOn capture.old capture.new }
    ensures took { result ≡ Ok Next.Packet
        → HasTaken capture.old capture.new (S.seen source.old) (S.seen source.new) (frame.new ∷ []) }
    ensures keep { (S.seen source.new).keep ≡ (S.seen source.old).keep }
    ensures cause { ReadsByCount (S.seen source.old).faults (S.seen source.new).faults result }
{
    let Some(reader) = capture else {
        return Ok(Next::End);
    };
    match reader.next(source, frame) {
        Ok(next) => Ok(next),
        Err(fault) => Err(stop_at(reader.taken() + 1, fault)),
    }
}

// Goes past the next record. Without a capture it is the end.
fn pass_record<S: Source>(
    alloc: Global,
    capture: &mut Option<Reader>,
    source: &mut S,
) -> Result<Next, RunEnd>
    ensures answer { (frame : List ℕ)
        × Reads capture.old (S.seen source.old) capture.new (S.seen source.new) result
        (GivesNext capture.old (S.seen source.old) capture.new (S.seen source.new) frame result) }
    ensures counted { result ≡ Ok Next.Packet → CountsOn capture.old capture.new }
    ensures keep { (S.seen source.new).keep ≡ (S.seen source.old).keep }
    ensures cause { ReadsByCount (S.seen source.old).faults (S.seen source.new).faults result }
{
    let Some(reader) = capture else {
        return Ok(Next::End);
    };
    match reader.pass(alloc, source) {
        Ok(next) => Ok(next),
        Err(fault) => Err(stop_at(reader.taken() + 1, fault)),
    }
}

// Reads so many records, or all that are left where there are fewer.
pub(crate) fn read_records<S: Source>(
    alloc: Global,
    capture: &mut Option<Reader>,
    source: &mut S,
    wanted: u32,
) -> Result<Frames, RunEnd>
    ensures answer { Reads capture.old (S.seen source.old) capture.new (S.seen source.new) result
        (λ frames left rest. GivesFrames wanted capture.old capture.new result frames left rest
        × TakesFrames wanted capture.old capture.new (S.seen source.old) (S.seen source.new) result frames) }
    ensures keep { (S.seen source.new).keep ≡ (S.seen source.old).keep }
    ensures cause { ReadsByCount (S.seen source.old).faults (S.seen source.new).faults result }
{
    let mut frames = Frames::new(alloc);
    for _ in 0..wanted {
        let mut frame = Octets::new(alloc);
        match next_record(capture, source, &mut frame) {
            Ok(Next::Packet) => {}
            Ok(Next::End) => return Ok(frames),
            Ok(Next::Cut(_)) => return Ok(frames),
            Err(end) => return Err(end),
        }
        frames.push(frame)?;
    }
    Ok(frames)
}

// Reads all records that are left, and answers how many bytes stand behind them that are no record.
pub(crate) fn read_rest<S: Source>(
    alloc: Global,
    capture: &mut Option<Reader>,
    source: &mut S,
) -> Result<u32, RunEnd>
    ensures answer { HasRecords capture.old (S.seen source.old)
        (GivesRest capture.old capture.new result) }
    ensures keep { (S.seen source.new).keep ≡ (S.seen source.old).keep }
    ensures cause { ReadsByCount (S.seen source.old).faults (S.seen source.new).faults result }
{
    'records: loop {
        match pass_record(alloc, capture, source) {
            Ok(Next::Packet) => {}
            Ok(Next::End) => return Ok(0),
            Ok(Next::Cut(count)) => return Ok(count),
            Err(end) => return Err(end),
        }
    }
}
