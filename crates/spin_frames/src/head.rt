//! The header of a capture file.

ghost use Rattle.spin_frames.specs.Heads.{HeadBy};

use spin_pcap::{Order, PcapFault, read_header};

/// The number of bytes of the header of a file.
pub const HEAD: usize = spin_pcap::HEADER;

// The magic of a file with times in nanoseconds.
const NANOSECONDS: u32 = 0xa1b2_3c4d;

/// What the header of a capture says.
#[derive(Clone, Copy, Debug, PartialEq, Eq)]
pub struct Head {
    /// The order of the bytes in each number.
    pub order: Order,
    /// Whether times are in nanoseconds, and not in microseconds.
    pub is_nano: bool,
    /// The snapshot length.
    pub snap: u32,
}

/// What the header at the front of these bytes says; or the first fault of the header: `Short`, `BadMagic`,
/// `BadVersion` or `BadLink`.
pub fn read_head(bytes: &[u8]) -> Result<Head, PcapFault>
    ensures { HeadBy bytes.now result }
{
    let order = read_header(bytes)?;
    Ok(Head {
        order,
        is_nano: order.read_u32(bytes) == NANOSECONDS,
        snap: order.read_u32(&bytes[16..]),
    })
}
