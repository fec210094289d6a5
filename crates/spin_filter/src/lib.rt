//! A filter of captures of any length, in constant memory.
//!
//! - [`filter_captures`] gives the commands of a script and then passes the records of captures: each is raised at the
//!   state that the commands left, the jobs that this leaves are done, and their sends are made; [`Filtered`] has what
//!   came of that;
//! - [`Outlets`] has the endpoints to which sends go, the capture that is written, and [`Counts`], what came of records in
//!   numbers: [`Tally`] counts numbered things, [`Hit`] the runs of a binding;
//! - [`Stop`] says why records are passed no further.
#![tactic(auto)]

mod captures;
mod commands;
mod counts;
mod filter;
mod hits;
mod listing;
mod outlets;
mod passing;
mod records;
mod rounds;
mod sending;
mod stop;
mod taken;
mod tally;

pub use counts::Counts;
pub use filter::{Filtered, filter_captures};
pub use hits::Hit;
pub use outlets::Outlets;
pub use stop::Stop;
pub use tally::Tally;
