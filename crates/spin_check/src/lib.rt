//! A judge of reports: is a text the report of one legal history of a script?
//!
//! - [`check_report`] answers it, for a script, the names of the endpoints that stand, and a capture that was read
//!   whole, [`Captured`];
//! - `deeds` is what each lane is to do, and `answer` what its next deed comes to;
//! - `told` reads of an entry's line what isn't owed: the lane, and the cycle of a conflict;
//! - `replay` goes along a segment's entries, with `jobs` and `sends`, and `segment` along one segment, with `flags` of
//!   the endpoints that stand;
//! - `front` cuts an owed text off the report;
//! - [`flags_of`] and [`records_of`] are what a run starts from, [`retire_all`] and [`put_last`] append lines of it: who makes
//!   a report has them from here, too.
#![tactic(auto)]

mod answer;
mod check;
mod deeds;
mod flags;
mod front;
mod jobs;
mod last;
mod replay;
mod segment;
mod sends;
mod start;
mod told;

pub use check::check_report;
pub use flags::retire_all;
pub use last::put_last;
pub use spin_pcap::Captured;
pub use start::{flags_of, records_of};
