//! The commands that run no lanes and deliver nothing: `check`, which judges a report, and `vm`, which runs a trace.
//!
//! - [`check_command`] and [`vm_command`] do them, and answer the status; [`CheckNames`] are those that the first is given;
//! - [`limits_are_stated`] states the limits in numbers.
#![tactic(auto)]

mod check;
mod limits;
mod vm;

pub use check::{CheckNames, check_command};
pub use limits::limits_are_stated;
pub use vm::vm_command;
