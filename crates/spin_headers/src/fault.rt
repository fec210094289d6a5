//! Why bytes aren't a valid header.

ghost use Rattle.std.specs.Prelude.{◌≡◌};
ghost use Rattle.spin_headers.specs.Headers.{number_of_fault};

use thiserror::Error;

/// Why bytes aren't a valid header. A reader answers the first that applies, in this order, in which
/// they are numbered from 1.
#[derive(Debug, Clone, Copy, PartialEq, Eq, Error)]
pub enum HeaderFault {
    /// There are fewer bytes than the shortest header has.
    #[error("the bytes end inside the header")]
    Short = 1,
    /// The version isn't 4.
    #[error("the version isn't 4")]
    Version = 2,
    /// The header length is under 5 words, or reaches past the bytes.
    #[error("the header length is too small or reaches past the bytes")]
    HeaderLength = 3,
    /// The total length is under the header's, or over the number of bytes.
    #[error("the total length is under the header's or over the number of bytes")]
    TotalLength = 4,
    /// The 16-bit words that the checksum covers don't sum to 0xFFFF.
    #[error("the checksum is wrong")]
    Checksum = 5,
    /// The packet is a fragment of a datagram.
    #[error("the packet is a fragment")]
    Fragment = 6,
    /// The length of the UDP header is under 8, or over the number of bytes.
    #[error("the length of the datagram is under 8 or over the number of bytes")]
    UdpLength = 7,
}

impl HeaderFault {
    /// The number of the fault, from 1 in the order above.
    pub fn number(self) -> u8
        ensures { result ≡ number_of_fault self }
    {
        self as u8
    }
}
