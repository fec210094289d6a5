//! Captures that are read whole.

ghost use Rattle.std.specs.Prelude.{◌≡◌, ◌≤◌, IfOk, IfSome, length};
ghost use Rattle.spin_pcap.specs.declared.limits.TheConstants.{MAX_RECORDS};
ghost use Rattle.spin_pcap.specs.Inner.Recording.{ReadsBody};
ghost use Rattle.spin_pcap.specs.Passing.{IsFresh, left_for};
ghost use Rattle.spin_pcap.specs.Whole.{ReadsFile, EndsByCount};

use crate::fault::BadRecord;
use crate::next::Next;
use crate::reader::Reader;
use spin_outside::Source;
use spin_values::{NoMemory, Octets, Sequence};
use std::alloc::Global;

/// The captured bytes of records, one after another.
pub type Frames = Sequence<Octets>;

/// A capture whose records all were read.
#[derive(Drop, Debug)]
pub struct Captured {
    /// The bytes of each record, in order.
    pub frames: Frames,
    /// How many bytes stand behind the records that are no whole record.
    pub cut: u32,
}

// Reads all records, and how many bytes stand behind them that are no record.
fn read_records<S: Source>(
    alloc: Global,
    reader: &mut Reader,
    source: &mut S,
) -> Result<Captured, BadRecord>
    requires { IsFresh reader.old }
    ensures read { IfSome (left_for reader.old.held (S.seen source.old).left)
        (λ bytes. ReadsBody reader.old.order bytes result) }
    ensures few { IfOk result (λ capture. length capture.frames ≤ MAX_RECORDS) }
    ensures keep { (S.seen source.new).keep ≡ (S.seen source.old).keep }
    ensures cause { EndsByCount (S.seen source.old).faults (S.seen source.new).faults result }
{
    let mut frames = Frames::new(alloc);
    'records: loop {
        let mut frame = Octets::new(alloc);
        match reader.next(source, &mut frame) {
            Ok(Next::Packet) => {}
            Ok(Next::End) => return Ok(Captured { frames, cut: 0 }),
            Ok(Next::Cut(cut)) => return Ok(Captured { frames, cut }),
            Err(fault) => return Err(BadRecord::at(reader.taken() + 1, fault)),
        }
        match frames.push(frame) {
            Ok(()) => {}
            Err(NoMemory) => return Err(BadRecord::NoMemory),
        }
    }
}

/// Reads a capture to its end: its header, all its records, and how many bytes stand behind them that are no record.
///
/// [`BadRecord::Capture`] comes exactly where the capture is refused, at the record of that number from 1, or 0 for the
/// header; [`BadRecord::ReadFault`] only where the source's count of faults rose, and [`BadRecord::NoMemory`] for want
/// of memory. It takes time linear in the bytes, and holds those of the records.
pub fn read_capture<S: Source>(alloc: Global, source: &mut S) -> Result<Captured, BadRecord>
    ensures read { IfSome (S.seen source.old).left (λ file. ReadsFile file result) }
    ensures few { IfOk result (λ capture. length capture.frames ≤ MAX_RECORDS) }
    ensures keep { (S.seen source.new).keep ≡ (S.seen source.old).keep }
    ensures cause { EndsByCount (S.seen source.old).faults (S.seen source.new).faults result }
{
    let mut reader = match Reader::start(alloc, source) {
        Ok(reader) => reader,
        Err(fault) => return Err(BadRecord::at(0, fault)),
    };
    read_records(alloc, &mut reader, source)
}
