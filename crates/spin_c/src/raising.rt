//! What the handle of an open raise holds.

use spin_host::{OpenRaise, Room};
use spin_seat::Party;
use std::sync::Arc;

/// An open raise, with its share of the hub.
#[derive(Drop)]
pub struct Opened {
    pub(crate) party: Arc<Party>,
    pub(crate) raise: OpenRaise,
}

/// What the handle of an open raise holds.
#[derive(Drop)]
pub enum Raising {
    /// The room of the last raise, and none is open.
    Idle(Room),
    /// A raise.
    Open(Opened),
}
