//! Whole runs without threads: the report of one legal history of a script, and all that its endpoints were sent.
//!
//! - [`run_text`] runs a script, lane after lane, and answers a [`Ran`], whose sends are [`Sending`]s;
//! - `part` is what one segment comes to so far, and answers deed after deed, with `jobs` and `sends`;
//! - `segment` runs one segment whole, with `flags` of the endpoints that stand.
#![tactic(auto)]

mod flags;
mod jobs;
mod part;
mod ran;
mod run;
mod segment;
mod sends;

pub use ran::{Ran, Sending, Sendings};
pub use run::run_text;
pub use spin_pcap::Captured;
