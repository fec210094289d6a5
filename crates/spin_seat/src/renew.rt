//! All that a new hub needs, before the old log is closed.

ghost use Rattle.std.specs.Prelude.{◌≡◌, ◌<◌, ◌≤◌, List, All, map, length, vec_capacity, IfOk};
ghost use Rattle.spin_word.specs.declared.command.TheConstants.{MAX_LANES, MAX_PLACE};
ghost use Rattle.spin_log.specs.Rows.{IsCommandBelow};
ghost use Rattle.spin_log.specs.History.{LogAction};
ghost use Rattle.spin_log.specs.Pens.{StandsIn, IsHistory, new_pens};
ghost use Rattle.spin_table.specs.SetupOf.{data_of};
ghost use Rattle.spin_table.specs.Renewals.{live_numbers, renewed};
ghost use Rattle.spin_seat.specs.Seats.{IsSeat, IsSeatFrom};
ghost use Rattle.spin_seat.specs.Homes.{AreFor, IsKeyOf};

use crate::closing::CloseRoom;
use crate::home::{SeatHomes, SeatTickets, homes_of};
use crate::hub::Hub;
use crate::seat::{Seat, Seats};
use crate::seats::{pens_of, seats_of};
use spin_log::{Log, Rows};
use spin_values::{NoMemory, Numbers};
use std::alloc::Global;
use std::mem;
use std::sync::Arc;

// The new log with its seats and their homes, and room for what the old log leaves.
#[derive(Drop)]
pub(crate) struct Ready {
    log: Log,
    seats: Seats,
    live: Numbers,
    homes: SeatHomes,
    tickets: SeatTickets,
    room: CloseRoom,
}

// What a hub that goes on over a new log leaves: its new seats with their homes and tickets, the rows of the old log, and
// the numbers that the live bindings had.
#[derive(Drop)]
pub(crate) struct Moved {
    pub(crate) seats: Seats,
    pub(crate) homes: SeatHomes,
    pub(crate) tickets: SeatTickets,
    pub(crate) rows: Rows,
    pub(crate) live: Numbers,
}

impl Hub {
    // A new log with so many lanes, whose seats are at this seat's version renewed, and all the memory that the old log
    // wants to be closed. These are the numbers of the version's live bindings.
    pub(crate) fn ready(
        &self,
        alloc: Global,
        seat: &Seat,
        live: Numbers,
        lanes: u8,
    ) -> Result<Ready, NoMemory>
        requires seat { IsSeat (data_of self.now.setup) seat.now }
        requires live { live ≡ live_numbers seat.now.state }
        requires room { length live < MAX_PLACE }
        requires some { 0 < lanes }
        requires few { lanes ≤ MAX_LANES }
        ensures lanes { IfOk result (λ ready. ready.log.lanes ≡ lanes) }
        ensures pens { IfOk result (λ ready.
            map (λ seat. seat.pen) ready.seats ≡ new_pens ready.log.id lanes) }
        ensures seats { IfOk result (λ ready.
            All (IsSeatFrom (data_of self.now.setup) (renewed seat.now.state)) ready.seats) }
        ensures live { IfOk result (λ ready. ready.live ≡ live) }
        ensures key { let d = data_of self.now.setup in
            IfOk result (λ ready. IsKeyOf ready.homes.table.shared.key ready.log.id d (renewed seat.now.state)) }
        ensures homes { IfOk result (λ ready. AreFor lanes ready.homes.table.shared.table_id ready.tickets) }
        ensures room { IfOk result (λ ready. lanes ≤ vec_capacity ready.room.pens) }
    {
        let _front = seat.front();
        let renewed = seat.version.renewed(alloc, &self.setup)?;
        let first = Arc::new(alloc, renewed)?;
        let (log, new_pens) = Log::new(alloc, lanes)?;
        let seats = seats_of(alloc, &self.setup, &first, new_pens)?;
        let (homes, tickets) = homes_of(alloc, &log, &self.setup, seats.get(0), lanes)?;
        let room = CloseRoom::new(alloc, usize::from(lanes))?;
        Ok(Ready {
            log,
            seats,
            live,
            homes,
            tickets,
            room,
        })
    }

    // Closes the log, for which there is room, and goes on over the new one.
    pub(crate) fn go_on(&mut self, ready: Ready, seats: Seats) -> Moved
        requires own { All (λ seat. seat.pen.log ≡ self.old.log.id) seats }
        requires room { length seats ≤ vec_capacity ready.room.pens }
        ensures hub { (self.new.log ≡ ready.log) × (self.new.setup ≡ self.old.setup) }
        ensures seats { result.seats ≡ ready.seats }
        ensures live { result.live ≡ ready.live }
        ensures homes { (result.homes ≡ ready.homes) × (result.tickets ≡ ready.tickets) }
        ensures each { All (λ seat. StandsIn result.rows seat.pen) seats }
        ensures history { let pens = map (λ seat. seat.pen) seats in
            (moments : List LogAction) × IsHistory result.rows pens moments }
        ensures rows { All (IsCommandBelow self.old.log.lanes) result.rows
            × (length result.rows ≤ MAX_PLACE) }
    {
        let Ready {
            log,
            seats: new_seats,
            live,
            homes,
            tickets,
            room,
        } = ready;
        let CloseRoom { rows, pens: room } = room;
        let pens = pens_of(room, seats);
        let old_log = mem::replace(&mut self.log, log);
        let rows = old_log.close_into(rows, pens);
        Moved {
            seats: new_seats,
            homes,
            tickets,
            rows,
            live,
        }
    }
}
