//! What a handle holds.

ghost use Rattle.std.specs.Prelude.{◌≡◌, []};

use crate::kept::Kept;
use spin_log::Rows;
use spin_seat::{Away, Party, Seat, SeatTicket};
use spin_values::{Numbers, Sequence};
use std::alloc::Global;
use std::sync::Arc;

/// What a handle has for each lane of the hub with which it was opened: the seat of that lane with its ticket, each at
/// the index of the lane; none where it is handed out or at home.
pub type Waiting = Sequence<Option<Away>>;

/// Room for the seats of all lanes, and for their tickets, which are put in order to renew or to end their hub.
#[derive(Drop)]
pub struct Room {
    pub(crate) seats: Vec<Seat>,
    pub(crate) tickets: Vec<SeatTicket>,
    ghost empty: { (seats.items ≡ []) × (tickets.items ≡ []) },
}

/// A seat away from its home, which is in the party that the handles of other lanes share; what the last raise or command
/// left; the seats of other lanes that wait, with room for all, which only a handle has with which a hub was opened; the
/// numbers that the bindings had which the hub's last renewal numbered anew; and how many lanes the hub has.
#[derive(Drop)]
pub struct Lane {
    pub(crate) party: Arc<Party>,
    pub(crate) away: Away,
    pub(crate) reply: Kept,
    pub(crate) waiting: Waiting,
    pub(crate) room: Room,
    pub(crate) before: Numbers,
    pub(crate) lanes: u8,
}

/// What an open handle holds.
#[derive(Drop)]
pub enum Held {
    /// A lane.
    Lane(Lane),
    /// The rows of a hub that was ended.
    Ended(Rows),
}

impl Room {
    // Room for nothing.
    pub(crate) fn none(alloc: Global) -> Room {
        Room {
            seats: Vec::new(alloc),
            tickets: Vec::new(alloc),
        }
    }
}
