//! The commands that run a script, each with its own words.

use spin_values::Text;
use std::alloc::Global;

pub mod generate;
pub mod join;
pub mod run;

// By what a command is done: threads, memory, and the gate that each deed passes.
#[derive(Drop)]
pub(crate) struct Means<'a, R, G> {
    pub(crate) rt: &'a R,
    pub(crate) alloc: Global,
    pub(crate) gate: &'a G,
}

// The names of a script, and of its capture where the command has one.
#[derive(Drop)]
pub(crate) struct RunNames<'a, P> {
    pub(crate) script: &'a Text,
    pub(crate) packets: &'a P,
}
