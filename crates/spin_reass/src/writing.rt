//! The bytes of a capture file, its lowest bytes first.

ghost use Rattle.std.specs.Prelude.{◌≡◌, ◌<◌, ◌^◌, ◌++◌, length, replicate, OnOk};
ghost use Rattle.spin_reass.specs.JoinedCaptures as specs;

use byteorder::{ByteOrder, LittleEndian};
use spin_pcap::{MAX_CAPTURED, Next};
use spin_values::NoMemory;

// The number of bytes of the header of the file.
const FILE: usize = 24;

// The number of bytes of the header of a record.
const RECORD: usize = 16;

// The magic of a file with times in microseconds.
const MICROSECONDS: u32 = 0xa1b2_c3d4;

// The number of the link type Ethernet.
const ETHERNET: u32 = 1;

// The header of the file.
fn file_header() -> [u8; FILE]
    ensures { result ≡ specs.file_header }
{
    let mut header = [0u8; FILE];
    LittleEndian::write_u32(&mut header, MICROSECONDS);
    LittleEndian::write_u16(&mut header[4..], 2);
    LittleEndian::write_u16(&mut header[6..], 4);
    LittleEndian::write_u32(&mut header[16..], MAX_CAPTURED);
    LittleEndian::write_u32(&mut header[20..], ETHERNET);
    header
}

// The header of a record with these lengths.
fn record_header(captured: u32, original: u32) -> [u8; RECORD]
    ensures { result ≡ specs.record_header captured original }
{
    let mut header = [0u8; RECORD];
    LittleEndian::write_u32(&mut header[8..], captured);
    LittleEndian::write_u32(&mut header[12..], original);
    header
}

/// Appends the header of the file.
pub fn put_file_header(out: &mut Vec<u8>) -> Result<(), NoMemory>
    ensures { OnOk result (out.new.items ≡ out.old.items ++ specs.file_header) }
{
    let header = file_header();
    out.extend_from_slice(&header)?;
    Ok(())
}

// Appends the header of a record with these lengths.
fn put_record_header(out: &mut Vec<u8>, captured: u32, original: u32) -> Result<(), NoMemory>
    ensures { OnOk result
        (out.new.items ≡ out.old.items ++ specs.record_header captured original) }
{
    let header = record_header(captured, original);
    out.extend_from_slice(&header)?;
    Ok(())
}

/// Appends the record of a frame.
pub fn put_record(out: &mut Vec<u8>, frame: &[u8]) -> Result<(), NoMemory>
    requires { length frame.now < 2 ^ 32 }
    ensures { OnOk result (out.new.items ≡ out.old.items ++ specs.record_of frame.now) }
{
    let len = frame.len() as u32;
    put_record_header(out, len, len)?;
    out.extend_from_slice(frame)?;
    Ok(())
}

// Appends so many zeros.
fn put_zeros(out: &mut Vec<u8>, count: u32) -> Result<(), NoMemory>
    ensures { OnOk result (out.new.items ≡ out.old.items ++ replicate count 0) }
{
    for _ in 0..count {
        out.push(0)?;
    }
    Ok(())
}

// Appends a cut rest of so many bytes, which no bytes behind it make a record that is too long.
fn put_cut(out: &mut Vec<u8>, count: u32) -> Result<(), NoMemory>
    ensures { OnOk result (out.new.items ≡ out.old.items ++ specs.cut_rest count) }
{
    if count < RECORD as u32 {
        put_zeros(out, count)?;
        return Ok(());
    }
    put_record_header(out, MAX_CAPTURED, 0)?;
    put_zeros(out, count - RECORD as u32)?;
    Ok(())
}

/// Appends what stands behind the records.
pub fn put_rest(out: &mut Vec<u8>, rest: Next) -> Result<(), NoMemory>
    ensures { OnOk result (out.new.items ≡ out.old.items ++ specs.rest_of rest) }
{
    match rest {
        Next::Packet | Next::End => Ok(()),
        Next::Cut(count) => {
            put_cut(out, count)?;
            Ok(())
        }
    }
}
