//! Captures of frames of four kinds, over which whole runs are made.

use spin_outside::{NoMemory, Octets};
use std::alloc::Global;

// The header of a file whose writer put the lowest byte first, with times in microseconds.
const LITTLE: [u8; 24] = [
    0xd4, 0xc3, 0xb2, 0xa1, 2, 0, 4, 0, 0, 0, 0, 0, 0, 0, 0, 0, 0, 0, 4, 0, 1, 0, 0, 0,
];

// An ARP request.
const ARP: &[u8] =
    b"\xff\xff\xff\xff\xff\xff\x02\x00\x00\x00\x00\x01\x08\x06\x00\x01\x08\x00\x06\x04\x00\x01\x02\x00\x00\x00\x00\x01\x0a\x00\x00\x01\x00\x00\x00\x00\x00\x00\x0a\x00\x00\x02";

// A TCP segment without data, whose frame is filled up with 40 zero bytes.
const TCP: &[u8] =
    b"\x02\x00\x00\x00\x00\x02\x02\x00\x00\x00\x00\x01\x08\x00\x45\x00\x00\x3c\x1c\x46\x40\x00\x40\x06\xb1\xe6\xac\x10\x0a\x63\xac\x10\x0a\x0c\0\0\0\0\0\0\0\0\0\0\0\0\0\0\0\0\0\0\0\0\0\0\0\0\0\0\0\0\0\0\0\0\0\0\0\0\0\0\0\0";

// A question of the domain name system over UDP, with a payload of 19 bytes.
pub(crate) const QUERY: &[u8] =
    b"\x02\x00\x00\x00\x00\x02\x02\x00\x00\x00\x00\x01\x08\x00\x45\x00\x00\x2f\x00\x02\x40\x00\x40\x11\x26\xba\x0a\x00\x00\x01\x0a\x00\x00\x02\xc0\x00\x00\x35\x00\x1b\x14\xea\x12\x34\x01\x00\x00\x01\x00\x00\x00\x00\x00\x00\x01a\x00\x00\x01\x00\x01";

// Its answer, with a payload of 35 bytes.
pub(crate) const ANSWER: &[u8] =
    b"\x02\x00\x00\x00\x00\x01\x02\x00\x00\x00\x00\x02\x08\x00\x45\x00\x00\x3f\x00\x03\x40\x00\x40\x11\x26\xa9\x0a\x00\x00\x02\x0a\x00\x00\x01\x00\x35\xc0\x00\x00\x2b\x42\x7e\x12\x34\x81\x80\x00\x01\x00\x01\x00\x00\x00\x00\x01a\x00\x00\x01\x00\x01\xc0\x0c\x00\x01\x00\x01\x00\x00\x00\x3c\x00\x04\x0a\x00\x00\x03";

// The frame of the record of that number, counted from 1.
fn frame_of(number: u32) -> &'static [u8] {
    match number % 4 {
        1 => ARP,
        2 => TCP,
        3 => QUERY,
        _ => ANSWER,
    }
}

// The header of a record, lowest byte first.
fn record(seconds: u32, captured: u32, original: u32) -> [u8; 16] {
    let [a, b, c, d] = seconds.to_le_bytes();
    let [e, f, g, h] = captured.to_le_bytes();
    let [i, j, k, l] = original.to_le_bytes();
    [a, b, c, d, 0, 0, 0, 0, e, f, g, h, i, j, k, l]
}

// Adds the record of a frame.
fn push_frame(file: &mut Octets, seconds: u32, frame: &[u8]) -> Result<(), NoMemory> {
    let len = u32::try_from(frame.len()).unwrap_or(0);
    file.extend_from_slice(&record(seconds, len, len))?;
    file.extend_from_slice(frame)
}

// Adds the record of that number, counted from 1.
pub(crate) fn push_record(file: &mut Octets, number: u32) -> Result<(), NoMemory> {
    let seconds = number.saturating_add(1_700_000_000);
    push_frame(file, seconds, frame_of(number))
}

// A capture of so many frames of the house's four kinds in turn.
pub(crate) fn capture(alloc: Global, records: u32) -> Result<Octets, NoMemory> {
    let mut file = Octets::from_bytes(alloc, &LITTLE)?;
    for number in 1..=records {
        push_record(&mut file, number)?;
    }
    Ok(file)
}
