//! The capture.

ghost use Rattle.std.specs.Prelude.{◌≡◌, ◌++◌, IfOk, OnOk};
ghost use Rattle.spin_gen.specs.Records.{record_header, ether_header, packet_header};
ghost use Rattle.spin_gen.specs.Records.{datagram, record_bytes, capture_of};

use crate::draws::Draws;
use byteorder::{BigEndian, ByteOrder, LittleEndian};
use spin_headers::{write_ipv4, write_udp};
use spin_values::{NoMemory, Octets};
use std::alloc::Global;

// The number of records.
const RECORDS: u16 = 1000;

// The number of bytes of a record with its header.
const RECORD: usize = 66;

// The header of the file, lowest byte first: times in microseconds, version 2.4, no time zone and no accuracy, at
// most 262,144 bytes of a frame, Ethernet.
const HEADER: [u8; 24] = [
    0xd4, 0xc3, 0xb2, 0xa1, 2, 0, 4, 0, 0, 0, 0, 0, 0, 0, 0, 0, 0, 0, 4, 0, 1, 0, 0, 0,
];

// The number of bytes of a frame.
const FRAME: u32 = 50;

// How many hops a packet may go.
const HOPS: u8 = 64;

// The protocol number of UDP.
const UDP: u8 = 17;

// The sender's address, 10.0.0.1.
const SOURCE: u32 = 0x0a00_0001;

// The receiver's address, 10.0.0.2.
const DESTINATION: u32 = 0x0a00_0002;

// The sender's port.
const SOURCE_PORT: u16 = 40_000;

// The receiver's port lies below this one.
const PORTS: u64 = 1024;

// The number of bytes of a datagram with its header.
const DATAGRAM: u16 = 16;

// The header of the record of that number, whose seconds are its number.
#[tactic(auto, unfolding(crate::specs::Records::record_header))]
fn record_header(number: u16) -> [u8; 16]
    ensures { result ≡ record_header number }
{
    let mut header = [0u8; 16];
    LittleEndian::write_u32(&mut header, u32::from(number));
    LittleEndian::write_u32(&mut header[8..], FRAME);
    LittleEndian::write_u32(&mut header[12..], FRAME);
    header
}

// The header of each frame: to 02:00:00:00:00:02, from 02:00:00:00:00:01, IPv4.
#[tactic(auto, unfolding(crate::specs::Records::ether_header))]
fn ether_header() -> [u8; 14]
    ensures { result ≡ ether_header }
{
    [2, 0, 0, 0, 0, 2, 2, 0, 0, 0, 0, 1, 8, 0]
}

// The header of the packet in the record of that number.
#[tactic(auto, unfolding(crate::specs::Records::packet_header))]
fn packet_header(number: u16) -> [u8; 20]
    ensures { result ≡ packet_header number }
{
    let mut header = [0u8; 20];
    write_ipv4(
        number,
        HOPS,
        UDP,
        SOURCE,
        DESTINATION,
        DATAGRAM,
        &mut header,
    );
    header
}

// The datagram in the record of that number, which goes to that port.
#[tactic(auto, unfolding(crate::specs::Records::datagram))]
fn datagram(number: u16, port: u16) -> [u8; 16]
    ensures { result ≡ datagram number port }
{
    let mut payload = [0u8; 8];
    BigEndian::write_u64(&mut payload, u64::from(number));
    let mut datagram = [0u8; 16];
    write_udp(
        SOURCE,
        DESTINATION,
        SOURCE_PORT,
        port,
        &payload,
        &mut datagram,
    );
    datagram
}

// Appends the record of that number, whose datagram goes to that port.
#[tactic(auto, unfolding(crate::specs::Records::record_bytes))]
fn put_record(out: &mut Octets, number: u16, port: u16) -> Result<(), NoMemory>
    ensures { OnOk result (out.new ≡ out.old ++ record_bytes number port) }
{
    out.extend_from_slice(&record_header(number))?;
    out.extend_from_slice(&ether_header())?;
    out.extend_from_slice(&packet_header(number))?;
    out.extend_from_slice(&datagram(number, port))
}

// The capture, whose ports are drawn in the order of the records. Its memory is taken at once.
#[tactic(auto, using(crate::proofs::DrawLemmas::none_after, crate::proofs::DrawLemmas::one_more, crate::proofs::DrawLemmas::drawn_more, crate::proofs::DrawLemmas::records_none, crate::proofs::DrawLemmas::records_more))]
pub(crate) fn capture(alloc: Global, draws: &mut Draws) -> Result<Octets, NoMemory>
    ensures { IfOk result (λ capture. capture ≡ capture_of draws.old) }
{
    let size = HEADER.len() + RECORD * usize::from(RECORDS);
    let mut out = Octets::with_capacity(alloc, size)?;
    out.extend_from_slice(&HEADER)?;
    for number in 0..RECORDS {
        let port = draws.below(PORTS) as u16;
        put_record(&mut out, number, port)?;
    }
    Ok(out)
}
