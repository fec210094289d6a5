//! A capture that is written: the header of the file, and whole records.

ghost use Rattle.std.specs.Prelude.{◌≡◌, ◌≤◌, length, OnOk};
ghost use Rattle.std.specs.Io.KnownBytes.{Appends};
ghost use Rattle.spin_outside.specs.Counts.{FailsByCount};
ghost use Rattle.spin_frames.specs.Packets.{Packet};
ghost use Rattle.spin_frames.specs.Written as written;
ghost use Rattle.spin_frames.specs.Written.{micros, with_waiting, written_record};

use crate::buffered::Buffered;
use crate::head::Head;
use byteorder::{ByteOrder, LittleEndian};
use spin_outside::{Failed, Sink};

/// A file to which frames are written as a capture, as tcpdump writes one: the lowest byte of each number first, and
/// times in microseconds.
pub type FrameFile<W> = Buffered<W>;

/// The header of a file with that snapshot length.
pub fn file_header(snap: u32) -> [u8; 24]
    ensures { result ≡ written.file_header snap }
{
    let mut header = [0u8; 24];
    LittleEndian::write_u32_into(&[0xa1b2_c3d4, 0x0004_0002, 0, 0, snap, 1], &mut header);
    header
}

// So many parts of a second, in microseconds.
fn micros(is_nano: bool, parts: u32) -> u32
    ensures { result ≡ micros is_nano parts }
{
    if is_nano { parts / 1000 } else { parts }
}

/// The header of a record of a capture with that head, as it is written.
pub fn record_header(head: Head, header: &[u8]) -> [u8; 16]
    requires { 16 ≤ length header.now }
    ensures { result ≡ written.record_header head header.now }
{
    let order = head.order;
    let numbers = [
        order.read_u32(header),
        micros(head.is_nano, order.read_u32(&header[4..])),
        order.read_u32(&header[8..]),
        order.read_u32(&header[12..]),
    ];
    let mut bytes = [0u8; 16];
    LittleEndian::write_u32_into(&numbers, &mut bytes);
    bytes
}

/// Writes a record. After a failure, at which the sink's count of faults rose, nothing more is known of the file.
pub fn put_record<W: Sink + Drop>(
    file: &mut FrameFile<W>,
    head: Head,
    header: &[u8],
    frame: &[u8],
) -> Result<(), Failed>
    requires { 16 ≤ length header.now }
    ensures taken { let packet : Packet = record { header = header.now; frame = frame.now } in
        OnOk result (Appends (with_waiting (W.seen file.old.sink) file.old.waiting).told
        (with_waiting (W.seen file.new.sink) file.new.waiting).told (written_record head packet)) }
    ensures cause { FailsByCount (W.seen file.old.sink).faults (W.seen file.new.sink).faults result }
{
    file.put(&record_header(head, header))?;
    file.put(frame)?;
    Ok(())
}
