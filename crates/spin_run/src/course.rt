//! What doesn't change in a run.

use spin_seat::Hub;
use spin_values::Text;
use std::alloc::Global;

// What the caller runs a script by: its threads, its memory, and the gate that each deed passes.
#[derive(Drop)]
pub(crate) struct Means<'a, R, G> {
    pub(crate) rt: &'a R,
    pub(crate) alloc: Global,
    pub(crate) gate: &'a G,
}

// The same for segments over lanes, with the lanes' hub, and the endpoints' names by number.
#[derive(Drop)]
pub(crate) struct Course<'a, R, G> {
    pub(crate) rt: &'a R,
    pub(crate) alloc: Global,
    pub(crate) gate: &'a G,
    pub(crate) hub: &'a Hub,
    pub(crate) names: &'a [Text],
}
