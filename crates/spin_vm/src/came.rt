//! What accesses and unmappings come to.

use crate::fault::Fault;
use spin_proto::Reply;

/// What a line came to.
#[derive(Drop, Debug)]
pub enum Came {
    /// An access to a mapped page: its frame.
    Found(u16),
    /// An access that found no frame: its fault, the reply to the fault's raise, and the frame that the reply gave.
    Faulted(Fault, Reply, Option<u16>),
    /// A page was taken out of the map, where it was mapped.
    Unmapped(bool),
}
