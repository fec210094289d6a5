//! Fragmented IPv4 datagrams made whole in a capture, and replies to ICMP echo requests.
//!
//! - [`join_capture`] makes a capture in which each datagram whose fragments all came is one frame, in whatever order
//!   they came, and [`JoinFault`] says why there is none;
//! - [`echo_reply`] writes the reply to a request, [`EchoFault`] says why there is none, and [`EchoEnd`] is an endpoint
//!   that hands replies to another;
//! - [`MAX_OPEN`], [`MAX_PAYLOAD`] and [`MAX_ECHO`] are the limits;
//! - [`whole_in_any_order`] and [`joined_is_a_capture`] are laws of joined captures.
#![tactic(auto)]

mod datagram;
mod echo;
mod echo_end;
mod fault;
mod join;
mod joiner;
mod laws;
mod limits;
mod piece;
mod writing;

pub use echo::echo_reply;
pub use echo_end::EchoEnd;
pub use fault::EchoFault;
pub use join::join_capture;
pub use laws::{joined_is_a_capture, whole_in_any_order};
pub use limits::{MAX_ECHO, MAX_OPEN, MAX_PAYLOAD, limits_are_stated};
pub use spin_pcap::BadRecord as JoinFault;
