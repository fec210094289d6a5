//! The law of equal counts: whatever the lanes do when, all runs of what is made from a number count the same.
#![tactic(auto)]

mod law;

pub use law::counts_are_one;
