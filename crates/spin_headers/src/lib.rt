//! The headers of Ethernet II, IPv4 and UDP: read where they are valid, refused by their first fault where
//! they aren't, and written.
//!
//! - [`fault`] is the list of faults;
//! - [`sum`] has the checksum of the internet protocols, RFC 1071;
//! - [`ether`], [`ipv4`] and [`udp`] have the three headers: RFC 894, RFC 791 and RFC 768.
//!
//! All fields stand highest byte first. No call takes memory, and each goes once over the bytes that it needs.
#![tactic(auto)]

mod ether;
mod fault;
mod ipv4;
mod sum;
mod udp;

pub use ether::{Ether, read_ether};
pub use fault::HeaderFault;
pub use ipv4::{Fragment, Ipv4, read_fragment, read_ipv4, write_ipv4};
pub use sum::checksum;
pub use udp::{Udp, read_udp, write_udp};
