//! Where sends go, and what counts them.

use crate::counts::Counts;
use spin_endpoint::Ends;
use spin_frames::FrameFile;
use spin_outside::Sink;

/// Where sends go, and what counts them.
#[derive(Drop)]
pub struct Outlets<W: Sink + Drop> {
    /// The endpoints, by name.
    pub ends: Ends,
    /// The capture that is written.
    pub file: FrameFile<W>,
    /// What came of records.
    pub counts: Counts,
}
