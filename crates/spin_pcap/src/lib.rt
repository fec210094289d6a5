//! Captures of packets: files of the classic format, version 2.4 (draft-ietf-opsawg-pcap), read record by record
//! from any source, in whatever pieces the source gives its bytes.
//!
//! - [`Reader`] gives the records, each as a [`Next`]; [`PcapFault`] says why a capture isn't read;
//! - [`read_capture`] reads one whole, and [`BadRecord`] says at which record it stops, and why;
//! - [`read_header`] reads the header of a file, and [`Order`] is that of the bytes in its numbers;
//! - [`Window`] has the bytes that were taken from a source and not given up, for readers that lend them;
//! - [`MAX_RECORDS`], [`MAX_CAPTURED`] and [`MAX_HELD`] are its limits;
//! - [`one_reading`], [`one_answer`] and [`each_has_reading`] are laws: a file with the header of a capture is one
//!   capture.
//!
//! Times, the time zone, the accuracy, the snapshot length and the original lengths aren't looked at.
#![tactic(auto)]

mod captured;
mod fault;
mod header;
mod laws;
mod limits;
mod next;
mod order;
mod reader;
mod state;
mod window;

pub use captured::{Captured, Frames, read_capture};
pub use fault::{BadRecord, PcapFault};
pub use header::{HEADER, read_header};
pub use laws::{each_has_reading, one_answer, one_reading};
pub use limits::{MAX_CAPTURED, MAX_HELD, MAX_RECORDS, limits_are_stated};
pub use next::Next;
pub use order::Order;
pub use reader::Reader;
pub use window::Window;
