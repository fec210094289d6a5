//! The parts of datagrams, as frames carry them.

ghost use Rattle.std.specs.Prelude.{◌≡◌, ◌≤◌, length, IfOk, Some, if◌then◌else◌};
ghost use Rattle.spin_reass.specs.Fragments as specs;
ghost use Rattle.spin_reass.specs.Joining.{same_key};

use crate::limits::MAX_PAYLOAD;
use spin_headers::{Ipv4, read_ether, read_fragment};
use spin_values::{NoMemory, Octets};
use std::alloc::Global;

/// The number of bytes of a frame's header.
pub const ETHER: usize = 14;

// What a frame carries: IPv4.
const IPV4: u16 = 0x0800;

/// Which datagram a fragment belongs to.
#[derive(Debug, Clone, Copy, Drop)]
pub struct Key {
    /// The sender's address.
    pub source: u32,
    /// The receiver's address.
    pub destination: u32,
    /// What the datagram carries.
    pub protocol: u8,
    /// The sender's number of the datagram.
    pub ident: u16,
}

impl Key {
    // The datagram that a packet belongs to.
    fn of(header: &Ipv4) -> Key
        ensures { result ≡ specs.key_of header.now }
    {
        Key {
            source: header.source,
            destination: header.destination,
            protocol: header.protocol,
            ident: header.ident,
        }
    }

    /// Whether the keys are equal.
    pub fn is(&self, other: &Key) -> bool
        ensures { result ≡ same_key self.now other.now }
    {
        self.source == other.source
            && self.destination == other.destination
            && self.protocol == other.protocol
            && self.ident == other.ident
    }
}

/// A part of a datagram.
#[derive(Debug, Drop)]
pub struct Part {
    /// The place of its first byte in the datagram.
    pub start: u32,
    /// Its bytes.
    pub bytes: Octets,
    /// Whether no part follows.
    pub last: bool,
    /// How many hops are left to its packet.
    pub ttl: u8,
}

impl Part {
    /// The number of its bytes.
    pub fn len(&self) -> u32
        requires { specs.end_of self.now ≤ MAX_PAYLOAD }
        ensures { result ≡ length self.now.bytes }
    {
        self.bytes.len() as u32
    }

    /// The place behind its last byte.
    pub fn end(&self) -> u32
        requires { specs.end_of self.now ≤ MAX_PAYLOAD }
        ensures { result ≡ specs.end_of self.now }
    {
        self.start + self.len()
    }

    /// Where the last part ends: this one, if it is last, or else there.
    pub fn end_or(&self, end: Option<u32>) -> Option<u32>
        requires { specs.end_of self.now ≤ MAX_PAYLOAD }
        ensures { result ≡ (if self.now.last then Some (specs.end_of self.now) else end) }
    {
        if self.last { Some(self.end()) } else { end }
    }

    /// Whether it has bytes, a multiple of 8 of them if more parts follow, and ends where a datagram may end.
    pub fn is_sound(&self) -> bool
        ensures { result ≡ specs.is_sound self.now }
    {
        let len = self.bytes.len();
        let end = MAX_PAYLOAD as usize;
        len > 0 && (self.last || len % 8 == 0) && len <= end && self.start as usize <= end - len
    }
}

/// A part, and the datagram that it belongs to.
#[derive(Debug, Drop)]
pub struct Piece {
    /// The datagram.
    pub key: Key,
    /// The part.
    pub part: Part,
}

/// The part that the frame carries, if it carries a fragment of IPv4, with a copy of its bytes.
#[tactic(auto, unfolding(crate::specs::Fragments::piece_of))]
pub fn read_piece(alloc: Global, frame: &[u8]) -> Result<Option<Piece>, NoMemory>
    ensures { IfOk result (λ piece. piece ≡ specs.piece_of frame.now) }
{
    let Ok(ether) = read_ether(frame) else {
        return Ok(None);
    };
    if ether.kind != IPV4 {
        return Ok(None);
    }
    let packet = &frame[ETHER..];
    let Ok(fragment) = read_fragment(packet) else {
        return Ok(None);
    };
    if !fragment.more && fragment.offset == 0 {
        return Ok(None);
    }
    let header = fragment.header;
    let bytes = &packet[usize::from(header.header_len)..usize::from(header.total_len)];
    Ok(Some(Piece {
        key: Key::of(&header),
        part: Part {
            start: u32::from(fragment.offset) * 8,
            bytes: Octets::from_bytes(alloc, bytes)?,
            last: !fragment.more,
            ttl: header.ttl,
        },
    }))
}
