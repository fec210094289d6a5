//! Captures in which fragmented datagrams are made whole.

ghost use Rattle.std.specs.Prelude.{◌≡◌, IfOk, IfSome};
ghost use Rattle.spin_pcap.specs.Passing.{left_for};
ghost use Rattle.spin_reass.specs.Inner.Reading.{IsFreshReader, JoinsBody, JoinsSome};
ghost use Rattle.spin_pcap.specs.Whole.{EndsByCount};
ghost use Rattle.spin_reass.specs.JoinedCaptures.{IsJoined, IsJoinedCapture};

use crate::joiner::Joiner;
use crate::writing::{put_file_header, put_record, put_rest};
use spin_outside::Source;
use spin_pcap::{BadRecord, Next, Reader};
use spin_values::Octets;
use std::alloc::Global;

// Reads all records, appends the record of each frame that takes the place of one, and answers how they end.
fn join_records<S: Source>(
    alloc: Global,
    reader: &mut Reader,
    source: &mut S,
    out: &mut Vec<u8>,
) -> Result<Next, BadRecord>
    requires { IsFreshReader reader.old }
    ensures joined { IfSome (left_for reader.old.held (S.seen source.old).left)
        (λ bytes. JoinsBody reader.old.order bytes out.old.items out.new.items result) }
    ensures some { JoinsSome out.old.items out.new.items result }
    ensures keep { (S.seen source.new).keep ≡ (S.seen source.old).keep }
    ensures cause { EndsByCount (S.seen source.old).faults (S.seen source.new).faults result }
{
    let mut joiner = Joiner::new(alloc);
    let mut frame = Octets::new(alloc);
    'records: loop {
        match reader.next(source, &mut frame) {
            Ok(Next::Packet) => {
                joiner.join(&mut frame)?;
                put_record(out, &frame)?;
            }
            Ok(Next::End) => return Ok(Next::End),
            Ok(Next::Cut(count)) => return Ok(Next::Cut(count)),
            Err(fault) => return Err(BadRecord::at(reader.taken() + 1, fault)),
        }
    }
}

/// The joined capture of the capture that the source gives, which is read to its end: its records in order, with the
/// fragmented datagrams made whole, and a rest that is as long as the capture's. What it answers is a joined capture
/// also where the source doesn't tell what it has left.
///
/// [`BadRecord::Capture`] comes exactly where the capture is bad, at the record of that number from 1, or 0 for the
/// header. [`BadRecord::ReadFault`] comes only where the source's count of faults rose, and [`BadRecord::NoMemory`]
/// for want of memory.
///
/// The time is linear in the bytes, times the logarithm of the parts of one datagram; a part that comes before others
/// of its datagram also moves their descriptions, at most 8,190. Beside the joined capture it holds one record, and
/// the parts of at most 64 datagrams of at most 65,515 bytes each.
pub fn join_capture<S: Source>(alloc: Global, source: &mut S) -> Result<Octets, BadRecord>
    ensures joined { IfSome (S.seen source.old).left (λ file. IsJoined file result) }
    ensures capture { IfOk result IsJoinedCapture }
    ensures keep { (S.seen source.new).keep ≡ (S.seen source.old).keep }
    ensures cause { EndsByCount (S.seen source.old).faults (S.seen source.new).faults result }
{
    let mut reader = match Reader::start(alloc, source) {
        Ok(reader) => reader,
        Err(fault) => return Err(BadRecord::at(0, fault)),
    };
    let mut out = Vec::new(alloc);
    put_file_header(&mut out)?;
    let rest = join_records(alloc, &mut reader, source, &mut out)?;
    put_rest(&mut out, rest)?;
    Ok(Octets::from_vec(out))
}
