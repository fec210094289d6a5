//! Captures of any length: read record by record, each lent where it lies in one window, and written.
//!
//! - [`read_head`] reads the header of a file into the window, and [`find_record`] finds the next record there;
//! - [`Window`] has the bytes that were taken and not given up, and [`MAX_WINDOW`] is the most of them;
//! - [`file_header`], [`record_header`] and [`put_record`] write a capture as tcpdump does, to a [`FrameFile`];
//! - [`Buffered`] is a sink to which bytes go many at a time, and [`Waiting`] those that wait for it.
//!
//! The format is that of [`spin_pcap`], which reads captures of a limited number of records, and copies each.
#![tactic(auto)]

mod buffered;
mod frames;
mod head;
mod limits;
mod records;
mod waiting;

pub use buffered::Buffered;
pub use frames::{FrameFile, file_header, put_record, record_header};
pub use head::{HEAD, Head, read_head};
pub use limits::limits_are_stated;
pub use records::{Found, MAX_WINDOW, RECORD, Window, find_record};
pub use waiting::{MAX_WAITING, Waiting};
