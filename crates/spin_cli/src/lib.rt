//! The top call of the program: what the words of a command line ask for, over any shelf, sink, endpoints, natives and
//! gate.
//!
//! - [`top`] has the call, [`spin`], which chooses the command;
//! - [`commands`] has a module for each command that runs a script; the others stand in [`spin_commands`].
#![tactic(auto)]

mod commands;
mod top;

pub use top::spin;
