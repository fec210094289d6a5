//! Captures in memory, in whatever pieces they come. A capture has so many frames of four kinds in turn.
//!
//! - `pieces RECORDS SIZE`: what ends a capture that comes in pieces of at most this size, and how many records came
//!   before;
//! - `fronts RECORDS FROM TO`: the same of the fronts of these lengths, the second left out, which must all end alike,
//!   where a record that is cut off is told by where it begins;
//! - `failing RECORDS READ`: the same of a capture in pieces of 50 bytes, where this read fails;
//! - `header BYTES`: the same of a file of these bytes;
//! - `length LENGTH`: three answers to a file with one record that says this captured length, of which 262,145 bytes
//!   are there, each with the length of the frame after it.

ghost use Rattle.std.specs.Prelude.{◌<◌};

use crate::fault::Fault;
use crate::told::tell;
use crate::words::Words;
use spin_outside::{MemSource, Octets};
use spin_pcap::{Next, PcapFault, Reader};
use std::alloc::Global;

// What is read.
#[derive(Clone, Copy)]
enum Kind {
    Pieces,
    Fronts,
    Failing,
    Header,
    Length,
}

const KINDS: [(&str, Kind); 5] = [
    ("pieces", Kind::Pieces),
    ("fronts", Kind::Fronts),
    ("failing", Kind::Failing),
    ("header", Kind::Header),
    ("length", Kind::Length),
];

pub(crate) fn answer(alloc: Global, words: &mut Words, out: &mut String) -> Result<(), Fault> {
    match words.one_of(&KINDS)? {
        Kind::Pieces => pieces(alloc, words, out),
        Kind::Fronts => fronts(alloc, words, out),
        Kind::Failing => failing(alloc, words, out),
        Kind::Header => header(alloc, words, out),
        Kind::Length => captured_length(alloc, words.u32()?, out),
    }
}

// The header of a file whose writer put the lowest byte first, with times in microseconds.
pub(crate) const LITTLE: [u8; 24] = [
    0xd4, 0xc3, 0xb2, 0xa1, 2, 0, 4, 0, 0, 0, 0, 0, 0, 0, 0, 0, 0, 0, 4, 0, 1, 0, 0, 0,
];

// An ARP request.
const ARP: &[u8] =
    b"\xff\xff\xff\xff\xff\xff\x02\x00\x00\x00\x00\x01\x08\x06\x00\x01\x08\x00\x06\x04\x00\x01\x02\x00\x00\x00\x00\x01\x0a\x00\x00\x01\x00\x00\x00\x00\x00\x00\x0a\x00\x00\x02";

// A TCP segment without data, whose frame is filled up with 40 zero bytes.
const TCP: &[u8] =
    b"\x02\x00\x00\x00\x00\x02\x02\x00\x00\x00\x00\x01\x08\x00\x45\x00\x00\x3c\x1c\x46\x40\x00\x40\x06\xb1\xe6\xac\x10\x0a\x63\xac\x10\x0a\x0c\0\0\0\0\0\0\0\0\0\0\0\0\0\0\0\0\0\0\0\0\0\0\0\0\0\0\0\0\0\0\0\0\0\0\0\0\0\0\0\0";

// A question of the domain name system over UDP, with a payload of 19 bytes.
pub(crate) const QUERY: &[u8] =
    b"\x02\x00\x00\x00\x00\x02\x02\x00\x00\x00\x00\x01\x08\x00\x45\x00\x00\x2f\x00\x02\x40\x00\x40\x11\x26\xba\x0a\x00\x00\x01\x0a\x00\x00\x02\xc0\x00\x00\x35\x00\x1b\x14\xea\x12\x34\x01\x00\x00\x01\x00\x00\x00\x00\x00\x00\x01a\x00\x00\x01\x00\x01";

// Its answer, with a payload of 35 bytes.
pub(crate) const ANSWER: &[u8] =
    b"\x02\x00\x00\x00\x00\x01\x02\x00\x00\x00\x00\x02\x08\x00\x45\x00\x00\x3f\x00\x03\x40\x00\x40\x11\x26\xa9\x0a\x00\x00\x02\x0a\x00\x00\x01\x00\x35\xc0\x00\x00\x2b\x42\x7e\x12\x34\x81\x80\x00\x01\x00\x01\x00\x00\x00\x00\x01a\x00\x00\x01\x00\x01\xc0\x0c\x00\x01\x00\x01\x00\x00\x00\x3c\x00\x04\x0a\x00\x00\x03";

// The frame of the record of that number, counted from 1.
fn frame_of(number: u32) -> &'static [u8] {
    match number % 4 {
        1 => ARP,
        2 => TCP,
        3 => QUERY,
        _ => ANSWER,
    }
}

// The header of a record, lowest byte first.
fn record(seconds: u32, captured: u32, original: u32) -> [u8; 16] {
    let [a, b, c, d] = seconds.to_le_bytes();
    let [e, f, g, h] = captured.to_le_bytes();
    let [i, j, k, l] = original.to_le_bytes();
    [a, b, c, d, 0, 0, 0, 0, e, f, g, h, i, j, k, l]
}

/// Adds the record of a frame.
pub(crate) fn push_frame(file: &mut Octets, seconds: u32, frame: &[u8]) -> Result<(), Fault> {
    let len = u32::try_from(frame.len()).unwrap_or(0);
    file.extend_from_slice(&record(seconds, len, len))?;
    file.extend_from_slice(frame)?;
    Ok(())
}

/// Adds the record of that number, counted from 1.
pub(crate) fn push_record(file: &mut Octets, number: u32) -> Result<(), Fault> {
    let seconds = number.saturating_add(1_700_000_000);
    push_frame(file, seconds, frame_of(number))
}

/// A capture of so many frames of the four kinds in turn.
pub(crate) fn capture(alloc: Global, records: u32) -> Result<Octets, Fault> {
    let mut file = Octets::from_bytes(alloc, &LITTLE)?;
    for number in 1..=records {
        push_record(&mut file, number)?;
    }
    Ok(file)
}

// What ended the reading of a capture, and how many records came before.
type End = (Result<Next, PcapFault>, u32);

// Reads whole records, each with its right bytes, up to the first other answer, which leaves no bytes.
fn read_records(
    reader: &mut Reader,
    source: &mut MemSource,
    frame: &mut Octets,
) -> Result<End, Fault> {
    for number in 1..=100u32 {
        let answer = reader.next(source, frame);
        if answer != Ok(Next::Packet) {
            if frame.is_empty() && reader.taken() == number - 1 {
                return Ok((answer, number - 1));
            }
            return Err(Fault::Wrong("a frame is left, or the records are counted otherwise"));
        }
        if frame.as_slice() != frame_of(number) {
            return Err(Fault::Wrong("a record has another frame"));
        }
    }
    Err(Fault::Wrong("there are too many records"))
}

// The first answer that isn't a whole record, or the refusal of the header.
fn read_all(alloc: Global, source: &mut MemSource) -> Result<End, Fault> {
    let mut frame = Octets::from_bytes(alloc, b"from before")?;
    match Reader::start(alloc, source) {
        Ok(mut reader) => read_records(&mut reader, source, &mut frame),
        Err(fault) => Ok((Err(fault), 0)),
    }
}

// The same of a file in one piece.
fn read_file(alloc: Global, bytes: &[u8]) -> Result<End, Fault> {
    let mut source = MemSource::new(Octets::from_bytes(alloc, bytes)?);
    read_all(alloc, &mut source)
}

fn tell_end(out: &mut String, end: &End) -> Result<(), Fault> {
    let (answer, records) = end;
    tell(out, answer)?;
    tell(out, records)
}

fn pieces(alloc: Global, words: &mut Words, out: &mut String) -> Result<(), Fault> {
    let file = capture(alloc, words.u32()?)?;
    let size = words.u32()?;
    if size == 0 {
        return Err(Fault::BadRow);
    }
    let mut source = MemSource::new(file);
    source.in_pieces(size);
    tell_end(out, &read_all(alloc, &mut source)?)
}

fn header(alloc: Global, words: &mut Words, out: &mut String) -> Result<(), Fault> {
    let file = words.bytes(alloc)?;
    tell_end(out, &read_file(alloc, file.as_slice())?)
}

fn failing(alloc: Global, words: &mut Words, out: &mut String) -> Result<(), Fault> {
    let mut source = MemSource::new(capture(alloc, words.u32()?)?);
    source.in_pieces(50);
    source.fail_at(words.u32()?)?;
    match read_all(alloc, &mut source)? {
        (Err(fault), _) => tell(out, &fault),
        end => tell_end(out, &end),
    }
}

// How the front of so many bytes ends, where a record that is cut off is told by where it begins.
fn end_of_front(alloc: Global, file: &[u8], len: u16) -> Result<End, Fault> {
    let front = file.get(..len as usize).ok_or(Fault::BadRow)?;
    match read_file(alloc, front)? {
        (Ok(Next::Cut(left)), records) => {
            Ok((Ok(Next::Cut(u32::from(len).wrapping_sub(left))), records))
        }
        end => Ok(end),
    }
}

fn fronts(alloc: Global, words: &mut Words, out: &mut String) -> Result<(), Fault> {
    let file = capture(alloc, words.u32()?)?;
    let (from, to) = (words.u16()?, words.u16()?);
    let first = end_of_front(alloc, file.as_slice(), from)?;
    for len in from..to {
        if end_of_front(alloc, file.as_slice(), len)? != first {
            return Err(Fault::Wrong("the fronts end in several ways"));
        }
    }
    tell_end(out, &first)
}

// A file with one record that says this captured length, of which 262,145 bytes are there.
fn file_of_length(alloc: Global, captured: u32) -> Result<MemSource, Fault> {
    let mut bytes = Vec::new(alloc);
    bytes.extend_from_slice(&LITTLE)?;
    bytes.extend_from_slice(&record(1, captured, 7))?;
    bytes.resize(40 + 262_145, 9u8)?;
    Ok(MemSource::new(Octets::from_vec(bytes)))
}

fn captured_length(alloc: Global, captured: u32, out: &mut String) -> Result<(), Fault> {
    let mut source = file_of_length(alloc, captured)?;
    match Reader::start(alloc, &mut source) {
        Ok(mut reader) => tell_three(&mut reader, &mut source, &mut Octets::new(alloc), out),
        Err(fault) => tell(out, &fault),
    }
}

// Tells three answers, and the length of the frame after each.
fn tell_three(
    reader: &mut Reader,
    source: &mut MemSource,
    frame: &mut Octets,
    out: &mut String,
) -> Result<(), Fault> {
    for _ in 0..3 {
        tell(out, &reader.next(source, frame))?;
        tell(out, &frame.len())?;
    }
    Ok(())
}
