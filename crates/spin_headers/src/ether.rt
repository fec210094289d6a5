//! The header of Ethernet II.

ghost use Rattle.std.specs.Prelude.{◌≡◌};
ghost use Rattle.spin_headers.specs.Headers.{ether_of};

use crate::fault::HeaderFault;
use byteorder::{BigEndian, ByteOrder};

// The number of bytes of the header.
const HEADER: usize = 14;

/// The header of an Ethernet II frame (RFC 894).
#[derive(Debug, Clone, Copy, PartialEq, Eq)]
pub struct Ether {
    /// The receiver's address, 48 bits.
    pub destination: u64,
    /// The sender's address, 48 bits.
    pub source: u64,
    /// What the frame carries: 0x0800 is IPv4, 0x0806 is ARP.
    pub kind: u16,
}

/// The header in the first 14 bytes of the frame.
///
/// The answer is [`HeaderFault::Short`] exactly under 14 bytes.
#[tactic(auto, unfolding(crate::specs::Headers::ether_of))]
pub fn read_ether(bytes: &[u8]) -> Result<Ether, HeaderFault>
    ensures { result ≡ ether_of bytes.now }
{
    if bytes.len() < HEADER {
        return Err(HeaderFault::Short);
    }
    Ok(Ether {
        destination: BigEndian::read_u48(bytes),
        source: BigEndian::read_u48(&bytes[6..]),
        kind: BigEndian::read_u16(&bytes[12..]),
    })
}
