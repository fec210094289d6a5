//! Closing a hub.

ghost use Rattle.std.specs.Prelude.{◌≡◌, ◌≤◌, [], List, All, map, length, vec_capacity, IfOk};
ghost use Rattle.spin_word.specs.declared.command.TheConstants.{MAX_PLACE};
ghost use Rattle.spin_log.specs.Rows.{IsCommandBelow};
ghost use Rattle.spin_log.specs.History.{LogAction};
ghost use Rattle.spin_log.specs.Pens.{StandsIn, IsHistory};
ghost use Rattle.spin_table.specs.SetupOf.{data_of};
ghost use Rattle.spin_table.specs.States.{State};
ghost use Rattle.spin_seat.specs.Replay.{IsCleanFrom};
ghost use Rattle.spin_seat.specs.Seats.{IsSeat, AreFrom, AreOfLanes};
ghost use Rattle.spin_seat.specs.Weaves.{AnswersAreLegalFrom};

use crate::hub::Hub;
use crate::seat::Seats;
use crate::seats::pens_of;
use spin_log::{Pen, RowRoom, Rows};
use spin_values::NoMemory;
use std::alloc::Global;

/// Room for all that a hub leaves when it is closed. Whoever has it closes a hub without want of memory. It takes 131 kB.
#[derive(Drop)]
pub struct CloseRoom {
    pub(crate) rows: RowRoom,
    pub(crate) pens: Vec<Pen>,
    ghost empty: { pens.items ≡ [] },
}

impl CloseRoom {
    /// Room for a hub of so many lanes.
    pub fn new(alloc: Global, lanes: usize) -> Result<CloseRoom, NoMemory>
        ensures { IfOk result (λ room. lanes ≤ vec_capacity room.pens) }
    {
        let rows = RowRoom::new(alloc)?;
        let pens = Vec::with_capacity(alloc, lanes)?;
        Ok(CloseRoom { rows, pens })
    }
}

impl Hub {
    /// The whole log, from all seats of the hub, as [`Hub::close`] answers it, where there is room for it. It takes no
    /// memory, and so can't fail. It takes time linear in the log.
    pub fn close_into(self, room: CloseRoom, seats: Seats) -> Rows
        requires own { All (λ seat. seat.pen.log ≡ self.log.id) seats }
        requires seats { All (IsSeat (data_of self.setup)) seats }
        requires all { length seats ≡ self.log.lanes }
        requires order { AreOfLanes 0 seats }
        requires room { length seats ≤ vec_capacity room.pens }
        ensures clean { (first : State) → AreFrom first seats → IsCleanFrom (data_of self.setup) first result }
        ensures legal { (first : State) → AreFrom first seats
            → AnswersAreLegalFrom (data_of self.setup) first seats result }
        ensures each { All (λ seat. StandsIn result seat.pen) seats }
        ensures history { let pens = map (λ seat. seat.pen) seats in
            (moments : List LogAction) × IsHistory result pens moments }
        ensures rows { All (IsCommandBelow self.log.lanes) result × (length result ≤ MAX_PLACE) }
    {
        let CloseRoom { rows, pens: room } = room;
        let pens = pens_of(room, seats);
        let Hub { log, setup: _setup } = self;
        log.close_into(rows, pens)
    }

    /// The whole log, from all seats of the hub, the k-th being that of lane k. It is clean: each
    /// row was accepted at its own place. And all that the seats have answered, as one list in the
    /// order of places, is a legal history of the plain dispatcher, from the first state of all seats
    /// up to the replay of the log.
    /// After want of memory hub and seats are gone. It takes time linear in the log.
    pub fn close(self, alloc: Global, seats: Seats) -> Result<Rows, NoMemory>
        requires own { All (λ seat. seat.pen.log ≡ self.log.id) seats }
        requires seats { All (IsSeat (data_of self.setup)) seats }
        requires all { length seats ≡ self.log.lanes }
        requires order { AreOfLanes 0 seats }
        ensures clean { (first : State) → AreFrom first seats
            → IfOk result (λ log. IsCleanFrom (data_of self.setup) first log) }
        ensures legal { (first : State) → AreFrom first seats
            → IfOk result (λ log. AnswersAreLegalFrom (data_of self.setup) first seats log) }
        ensures each { IfOk result (λ log. All (λ seat. StandsIn log seat.pen) seats) }
        ensures history { let pens = map (λ seat. seat.pen) seats in
            IfOk result (λ log. (moments : List LogAction) × IsHistory log pens moments) }
        ensures rows { IfOk result (λ log. All (IsCommandBelow self.log.lanes) log × (length log ≤ MAX_PLACE)) }
    {
        let room = CloseRoom::new(alloc, seats.len())?;
        Ok(self.close_into(room, seats))
    }
}
