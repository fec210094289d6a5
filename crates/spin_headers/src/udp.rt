//! The header of UDP.

ghost use Rattle.std.specs.Prelude.{◌≡◌, ◌≤◌, ◌+◌, ◌++◌, length, Ok, IfOk};
ghost use Rattle.spin_headers.specs.Headers.{udp_of, udp_bytes, udp_payload, udp_datagram};
ghost use Rattle.spin_headers.specs.Headers as specs;
ghost use Rattle.spin_headers.specs.Sums.{word_sum};

use crate::fault::HeaderFault;
use crate::sum::{WHOLE, add_words};
use byteorder::{BigEndian, ByteOrder};

// The number of bytes of the header.
const HEADER: usize = 8;

// The protocol number of UDP.
const UDP: u8 = 17;

/// The header of a UDP datagram (RFC 768).
#[derive(Debug, Clone, Copy, PartialEq, Eq)]
pub struct Udp {
    /// The sender's port.
    pub source_port: u16,
    /// The receiver's port.
    pub destination_port: u16,
    /// The length of the datagram with its header, in bytes.
    pub length: u16,
}

// What the checksum covers besides the datagram: both addresses, the protocol and the length.
fn pseudo_header(source: u32, destination: u32, length: u16) -> [u8; 12]
    ensures { result ≡ specs.pseudo_header source destination length }
{
    let mut header = [0u8; 12];
    BigEndian::write_u32(&mut header, source);
    BigEndian::write_u32(&mut header[4..], destination);
    header[9] = UDP;
    BigEndian::write_u16(&mut header[10..], length);
    header
}

// The sum over the pseudo-header and the datagram. It takes one pass.
fn sum_with_addresses(source: u32, destination: u32, length: u16, datagram: &[u8]) -> u16
    ensures { result ≡ word_sum (specs.pseudo_header source destination length ++ datagram.now) }
{
    let header = pseudo_header(source, destination, length);
    add_words(add_words(0, &header), datagram)
}

/// The header of the datagram that these addresses exchange. A checksum of 0 says that none was made. Bytes past
/// the length are padding. It takes one pass over the datagram.
///
/// The first of these that applies is answered:
/// - [`HeaderFault::Short`] under 8 bytes;
/// - [`HeaderFault::UdpLength`] where the length is under 8, or over the number of bytes;
/// - [`HeaderFault::Checksum`] where the checksum isn't 0, and the 16-bit words of pseudo-header, header and
///   payload up to the length don't sum to 0xFFFF.
#[tactic(auto, unfolding(crate::specs::Headers::udp_of))]
pub fn read_udp(bytes: &[u8], source: u32, destination: u32) -> Result<Udp, HeaderFault>
    ensures header { result ≡ udp_of bytes.now source destination }
    ensures lengths { IfOk result (λ header.
        (8 ≤ header.length) × (header.length ≤ length bytes.now)) }
{
    if bytes.len() < HEADER {
        return Err(HeaderFault::Short);
    }
    let header = Udp {
        source_port: BigEndian::read_u16(bytes),
        destination_port: BigEndian::read_u16(&bytes[2..]),
        length: BigEndian::read_u16(&bytes[4..]),
    };
    let end = usize::from(header.length);
    if end < HEADER || bytes.len() < end {
        return Err(HeaderFault::UdpLength);
    }
    if BigEndian::read_u16(&bytes[6..]) == 0 {
        return Ok(header);
    }
    if sum_with_addresses(source, destination, header.length, &bytes[..end]) != WHOLE {
        return Err(HeaderFault::Checksum);
    }
    Ok(header)
}

// Writes header and payload into `out` with 0 in place of the checksum.
fn write_without_checksum(source_port: u16, destination_port: u16, payload: &[u8], out: &mut [u8])
    requires room { length out.old ≡ 8 + length payload.now }
    requires payload { length payload.now ≤ 65507 }
    ensures { out.new ≡ udp_bytes source_port destination_port 0 payload.now }
{
    let mut header = [0u8; HEADER];
    BigEndian::write_u16(&mut header, source_port);
    BigEndian::write_u16(&mut header[2..], destination_port);
    BigEndian::write_u16(&mut header[4..], (HEADER + payload.len()) as u16);
    out[..HEADER].copy_from_slice(&header);
    out[HEADER..].copy_from_slice(payload);
}

/// Writes header and payload into `out`, which has 8 bytes more than the payload, with the checksum for these
/// addresses. The payload has at most 65,507 bytes, which is what fits an IPv4 packet. A checksum that is computed
/// as 0 is written as 0xFFFF, since 0 says that none was made. It takes one pass over the payload to copy it, and
/// one to sum it.
pub fn write_udp(
    source: u32,
    destination: u32,
    source_port: u16,
    destination_port: u16,
    payload: &[u8],
    out: &mut [u8],
)
    requires room { length out.old ≡ 8 + length payload.now }
    requires payload { length payload.now ≤ 65507 }
    ensures datagram { out.new
        ≡ udp_datagram source destination source_port destination_port payload.now }
    ensures valid { let header : Udp = record {
      source_port = source_port;
      destination_port = destination_port;
      length = 8 + length payload.now;
    } in
        (udp_of out.new source destination ≡ Ok header)
        × (udp_payload header out.new ≡ payload.now) }
{
    let length = (HEADER + payload.len()) as u16;
    write_without_checksum(source_port, destination_port, payload, out);
    let sum = sum_with_addresses(source, destination, length, out);
    let checksum = if sum == WHOLE { WHOLE } else { WHOLE - sum };
    BigEndian::write_u16(&mut out[6..], checksum);
}
