//! A large script and a capture, made from a number: the same number makes the same bytes.
//!
//! - `draws` draws numbers, one after another;
//! - `script` makes the script: its declarations from `head`, and the `lines` of its lanes;
//! - `capture` makes the capture;
//! - `made` has what is made, and `laws` says that it is read.
#![tactic(auto)]

mod capture;
mod draws;
mod head;
mod laws;
mod lines;
mod made;
mod script;

pub use laws::{captures_are_read, scripts_are_read};
pub use made::{Generated, generate};
