//! The law that what a filter of captures does is one history of a run.
#![tactic(auto)]

mod law;

pub use law::filter_is_run;
