//! The header of IPv4.

ghost use Rattle.std.specs.Prelude.{◌≡◌, ◌≤◌, ◌+◌, ◌++◌, ℕ, List, length, drop, Ok, IfOk};
ghost use Rattle.spin_headers.specs.Headers.{fragment_of, ipv4_of, ipv4_bytes, ipv4_header, ipv4_payload, is_part};
ghost use Rattle.spin_headers.specs.Headers as specs;

use crate::fault::HeaderFault;
use crate::sum::{WHOLE, add_words, checksum};
use byteorder::{BigEndian, ByteOrder};

// The number of bytes of a header without options.
const HEADER: usize = 20;

// Version 4, and the number of 32-bit words of a header without options.
const VERSION_AND_WORDS: u8 = 0x45;

// The bit that says that more fragments follow.
const MORE_FRAGMENTS: u16 = 0x2000;

// The bit that forbids to break the packet up.
const DO_NOT_FRAGMENT: u16 = 0x4000;

/// The header of an IPv4 packet (RFC 791).
#[derive(Debug, Clone, Copy, PartialEq, Eq)]
pub struct Ipv4 {
    /// The length of the header with its options, in bytes.
    pub header_len: u8,
    /// The length of the packet with its header, in bytes.
    pub total_len: u16,
    /// The sender's number of the packet.
    pub ident: u16,
    /// How many hops are left.
    pub ttl: u8,
    /// What the packet carries: 1 is ICMP, 6 TCP, 17 UDP.
    pub protocol: u8,
    /// The sender's address.
    pub source: u32,
    /// The receiver's address.
    pub destination: u32,
}

/// The header of a packet that may be a fragment, and where the fragment stands in its datagram (RFC 791).
#[derive(Debug, Clone, Copy, PartialEq, Eq)]
pub struct Fragment {
    /// The header of the packet.
    pub header: Ipv4,
    /// Where the payload begins in the datagram, in units of 8 bytes.
    pub offset: u16,
    /// Whether more fragments follow.
    pub more: bool,
}

impl Fragment {
    // Whether the packet is a part of a datagram: more parts follow, or it isn't the first.
    fn is_part(&self) -> bool
        ensures { result ≡ is_part self.now }
    {
        self.more || self.offset != 0
    }
}

// The fields, where all fit.
fn ipv4_fields(bytes: &[u8]) -> Ipv4
    requires { HEADER ≤ length bytes.now }
    ensures { result ≡ specs.ipv4_fields bytes.now }
{
    Ipv4 {
        header_len: bytes[0] % 16 * 4,
        total_len: BigEndian::read_u16(&bytes[2..]),
        ident: BigEndian::read_u16(&bytes[4..]),
        ttl: bytes[8],
        protocol: bytes[9],
        source: BigEndian::read_u32(&bytes[12..]),
        destination: BigEndian::read_u32(&bytes[16..]),
    }
}

// The fields and the place in the datagram, where all fit.
fn fragment_fields(bytes: &[u8]) -> Fragment
    requires { HEADER ≤ length bytes.now }
    ensures { result ≡ specs.fragment_fields bytes.now }
{
    let flags = BigEndian::read_u16(&bytes[6..]);
    Fragment {
        header: ipv4_fields(bytes),
        // the 13 bits below that bit are the offset
        offset: flags % MORE_FRAGMENTS,
        more: flags / MORE_FRAGMENTS % 2 == 1,
    }
}

/// The header of a packet that may be a fragment. Options are skipped, and bytes past the total length are padding.
/// It takes one pass over the header.
///
/// The first of these that applies is answered:
/// - [`HeaderFault::Short`] under 20 bytes;
/// - [`HeaderFault::Version`] where the version isn't 4;
/// - [`HeaderFault::HeaderLength`] where the header length is under 5 words, or reaches past the bytes;
/// - [`HeaderFault::TotalLength`] where the total length is under the header's, or over the number of bytes;
/// - [`HeaderFault::Checksum`] where the header's 16-bit words don't sum to 0xFFFF.
#[tactic(auto, unfolding(crate::specs::Headers::fragment_of))]
pub fn read_fragment(bytes: &[u8]) -> Result<Fragment, HeaderFault>
    ensures fragment { result ≡ fragment_of bytes.now }
    ensures lengths { IfOk result (λ fragment.
        (20 ≤ fragment.header.header_len)
        × (fragment.header.header_len ≤ fragment.header.total_len)
        × (fragment.header.total_len ≤ length bytes.now)) }
{
    if bytes.len() < HEADER {
        return Err(HeaderFault::Short);
    }
    if bytes[0] / 16 != 4 {
        return Err(HeaderFault::Version);
    }
    let fragment = fragment_fields(bytes);
    let header = fragment.header;
    let header_len = usize::from(header.header_len);
    if header_len < HEADER || bytes.len() < header_len {
        return Err(HeaderFault::HeaderLength);
    }
    let total_len = usize::from(header.total_len);
    if total_len < header_len || bytes.len() < total_len {
        return Err(HeaderFault::TotalLength);
    }
    if add_words(0, &bytes[..header_len]) != WHOLE {
        return Err(HeaderFault::Checksum);
    }
    Ok(fragment)
}

/// The header of the packet, as [`read_fragment`] reads it.
///
/// The first of these that applies is answered:
/// - the faults of [`read_fragment`], in their order;
/// - [`HeaderFault::Fragment`] where more fragments follow or the offset isn't 0.
#[tactic(auto, unfolding(crate::specs::Headers::ipv4_of, crate::specs::Headers::fragment_of))]
pub fn read_ipv4(bytes: &[u8]) -> Result<Ipv4, HeaderFault>
    ensures header { result ≡ ipv4_of bytes.now }
    ensures lengths { IfOk result (λ header.
        (20 ≤ header.header_len)
        × (header.header_len ≤ header.total_len)
        × (header.total_len ≤ length bytes.now)) }
{
    let fragment = read_fragment(bytes)?;
    if fragment.is_part() {
        return Err(HeaderFault::Fragment);
    }
    Ok(fragment.header)
}

// A header of those fields with 0 in place of its checksum.
fn without_checksum(
    ident: u16,
    ttl: u8,
    protocol: u8,
    source: u32,
    destination: u32,
    payload_len: u16,
) -> [u8; 20]
    requires { payload_len ≤ 65515 }
    ensures { result ≡ ipv4_bytes ident ttl protocol source destination payload_len 0 }
{
    let mut header = [0u8; 20];
    header[0] = VERSION_AND_WORDS;
    BigEndian::write_u16(&mut header[2..], 20 + payload_len);
    BigEndian::write_u16(&mut header[4..], ident);
    BigEndian::write_u16(&mut header[6..], DO_NOT_FRAGMENT);
    header[8] = ttl;
    header[9] = protocol;
    BigEndian::write_u32(&mut header[12..], source);
    BigEndian::write_u32(&mut header[16..], destination);
    header
}

/// Writes a header for a payload of that many bytes, at most 65,515, into `out`, which has 20 bytes: no options,
/// type of service 0, not to be broken up, and the right checksum. With any such payload after it it is valid.
pub fn write_ipv4(
    ident: u16,
    ttl: u8,
    protocol: u8,
    source: u32,
    destination: u32,
    payload_len: u16,
    out: &mut [u8],
)
    requires room { length out.old ≡ 20 }
    requires payload { payload_len ≤ 65515 }
    ensures header { out.new ≡ ipv4_header ident ttl protocol source destination payload_len }
    ensures valid { let header : Ipv4 = record {
      header_len = 20;
      total_len = 20 + payload_len;
      ident = ident;
      ttl = ttl;
      protocol = protocol;
      source = source;
      destination = destination;
    } in
        (payload : List ℕ) → length payload ≡ payload_len
        → (ipv4_of (out.new ++ payload) ≡ Ok header)
        × (ipv4_payload header (out.new ++ payload) ≡ payload) }
{
    let mut header = without_checksum(ident, ttl, protocol, source, destination, payload_len);
    let sum = checksum(&header);
    BigEndian::write_u16(&mut header[10..], sum);
    out.copy_from_slice(&header);
}
