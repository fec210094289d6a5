//! The plain dispatcher as a function, and the law that a script with one lane has the history that it gives.
#![tactic(auto)]

mod law;

pub use law::{examples_are_worked, one_lane_is_plain};
