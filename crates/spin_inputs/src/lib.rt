//! The stages of a call before anything is run: files that are read whole, the script among them, captures that are
//! opened or read whole; and how a call ends.
//!
//! - [`end`] has the ends of a call, their statuses and lines: [`End`], [`stop`], [`end_at`];
//! - [`files`] reads a file whole ([`load`]), and the script ([`script_of`]);
//! - [`capture`] finds and opens a capture ([`open`]), [`records`] reads one whole ([`captured_of`]);
//! - [`held`] is a source over bytes in memory ([`BytesSource`]), and reads the header of a capture there
//!   ([`behind_header`]);
//! - [`one_script_is_said`] says that a text says one script;
//! - [`limits_are_stated`] states the limits in numbers.
#![tactic(auto)]

mod capture;
mod end;
mod files;
mod held;
mod law;
mod limits;
mod records;

pub use capture::{Capture, find_packets, open};
pub use end::{End, Input, end_at, status_of, stop};
pub use files::{LoadFault, TEXT_LIMIT, load, script_of};
pub use held::{BytesSource, HeldCapture, behind_header};
pub use law::one_script_is_said;
pub use limits::limits_are_stated;
pub use records::captured_of;
