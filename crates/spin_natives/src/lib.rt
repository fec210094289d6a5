//! The natives of the program: the handler `first_word`, the guard `is_ipv4` and the authoriser `own_two`.
//!
//! [`boxed_objects`] makes the objects, each in its box, and [`natives_of`] the list of natives of them: the program
//! makes of each box one of a trait's objects in between.
#![tactic(auto)]

mod natives;

pub use natives::{Doer, Follower, IsIpv4, boxed_objects, natives_of};
