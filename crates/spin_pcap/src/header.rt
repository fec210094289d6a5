//! The header of a capture file.

ghost use Rattle.std.specs.Prelude.{◌≡◌, ◌≤◌, length};
ghost use Rattle.spin_pcap.specs.Captures as specs;

use crate::fault::PcapFault;
use crate::order::Order;

/// The number of bytes of the header.
pub const HEADER: usize = 24;

// The magic of a file with times in microseconds.
const MICROSECONDS: u32 = 0xa1b2_c3d4;

// The magic of a file with times in nanoseconds.
const NANOSECONDS: u32 = 0xa1b2_3c4d;

// The number of the link type Ethernet.
const ETHERNET: u32 = 1;

fn is_magic(n: u32) -> bool
    ensures { result ≡ specs.is_magic n }
{
    n == MICROSECONDS || n == NANOSECONDS
}

// The order in which the magic stands in the first four bytes.
fn order_of(bytes: &[u8]) -> Option<Order>
    requires { 4 ≤ length bytes.now }
    ensures { result ≡ specs.order_of bytes.now }
{
    if is_magic(Order::Big.read_u32(bytes)) {
        return Some(Order::Big);
    }
    if is_magic(Order::Little.read_u32(bytes)) {
        return Some(Order::Little);
    }
    None
}

fn is_version(order: Order, bytes: &[u8]) -> bool
    requires { 8 ≤ length bytes.now }
    ensures { result ≡ specs.is_version order bytes.now }
{
    order.read_u16(&bytes[4..]) == 2 && order.read_u16(&bytes[6..]) == 4
}

/// The byte order of the fields, which the magic decides; or the first fault of the header.
pub fn read_header(bytes: &[u8]) -> Result<Order, PcapFault>
    ensures { result ≡ specs.header_of bytes.now }
{
    if bytes.len() < HEADER {
        return Err(PcapFault::Short);
    }
    let Some(order) = order_of(bytes) else {
        return Err(PcapFault::BadMagic);
    };
    if !is_version(order, bytes) {
        return Err(PcapFault::BadVersion);
    }
    if order.read_u32(&bytes[20..]) != ETHERNET {
        return Err(PcapFault::BadLink);
    }
    Ok(order)
}
