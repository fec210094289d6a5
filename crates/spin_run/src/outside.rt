//! What a run reaches outside.

use crate::telling::Telling;
use spin_endpoint::Ends;
use spin_outside::Source;
use spin_pcap::Reader;

// What a run reads, tells and sends to: the capture and its source, what is told the segments, and the endpoints.
#[derive(Drop)]
pub(crate) struct Outside<'a, S: Source, T: Telling> {
    pub(crate) capture: &'a mut Option<Reader>,
    pub(crate) source: &'a mut S,
    pub(crate) out: &'a mut T,
    pub(crate) ends: &'a mut Ends,
}
