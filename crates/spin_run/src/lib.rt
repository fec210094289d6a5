//! Whole runs: lanes on threads, captures by segment, deliveries, and one woven history.
//!
//! - `lane` is one lane of a segment, which does the deeds of the lines that name it and makes their lines, which
//!   `trail` keeps, and `lanes` all of them side by side;
//! - `meeting` lets the seats of all lanes know the same;
//! - `weave` puts the entries and jobs of all lanes into one history, `segment` runs a segment whole, and `entries` takes
//!   out the entries that lanes keep;
//! - `jobs_left` notes the jobs that an answer leaves, and `copying` makes entries of their own of those that are lent;
//! - `records` reads what a segment's packet lines take of a capture, `retiring` retires endpoints, `sends` delivers;
//! - `lines` makes a segment's lines, `writing` writes them, `one` runs a segment with all this, `ending` ends a run;
//! - `outside` is what a run reads, tells and sends to, `course` what doesn't change in it;
//! - `telling` has what becomes of a segment: it is written, or counted by `tally`;
//! - `script` runs a whole script, `summary` with a summary in place of the report, `end` has how a run ends;
//! - `law` says that the place of ready lanes is the number of rows that they know, and that a source that tells what
//!   it has left has one list of records left; `place` tells that place;
//! - `limits` states the limits.
#![tactic(auto)]

mod copying;
mod course;
mod end;
mod ending;
mod entries;
mod jobs_left;
mod lane;
mod lanes;
mod law;
mod limits;
mod lines;
mod meeting;
mod one;
mod outside;
mod place;
mod records;
mod retiring;
mod script;
mod segment;
mod sends;
mod summary;
mod tally;
mod telling;
mod trail;
mod weave;
mod writing;

pub use end::RunEnd;
pub use lane::Lane;
pub use lanes::{Lanes, run_lanes};
pub use law::{place_is_front, records_are_one};
pub use limits::limits_are_stated;
pub use script::run_script;
pub use segment::{WORKERS, Woven, run_segment};
pub use spin_pcap::Frames;
pub use summary::run_summary;
pub use trail::{EntryIndex, Kind, Marks, Sending, Span, Trail, Trails};
