//! The report of a run: the line of each entry of a history, and of each job.
//!
//! - `entry` is an entry of a history: where it stands, what was asked, and what it answered;
//! - `view` is an entry that is lent;
//! - `records` are those of a capture that a line takes;
//! - `verdict` writes what became of a command, and `reply` what a deed or a job came to;
//! - `text` writes whole lines;
//! - `law` says that a report tells one history from all others.
#![tactic(auto)]

mod entry;
mod law;
mod records;
mod reply;
mod text;
mod verdict;
mod view;

pub use entry::{Entries, Entry, EntryKey, What};
pub use law::{one_history, report_tells};
pub use records::{records_wanted, split_records};
pub use reply::reply_text;
pub use text::{
    CaptureCounts, end_text, entry_text, job_text, lost_text, retire_text, segment_text, view_text,
};
pub use verdict::refusal_number;
pub use view::{EntryView, LentWhat, WhatView};
