//! A hub that goes on over a new log.

ghost use Rattle.std.specs.Prelude.{◌≡◌, ◌<◌, ◌≤◌, List, All, map, length, slice_index_or};
ghost use Rattle.std.specs.Prelude.{vec_capacity, IfOk, IfErr, OnOk, MatchResult};
ghost use Rattle.spin_word.specs.declared.command.TheConstants.{MAX_PLACE};
ghost use Rattle.spin_log.specs.Rows.{IsCommandBelow};
ghost use Rattle.spin_log.specs.History.{LogAction};
ghost use Rattle.spin_log.specs.Pens.{StandsIn, IsHistory, new_pens};
ghost use Rattle.spin_table.specs.SetupOf.{data_of};
ghost use Rattle.spin_table.specs.States.{State};
ghost use Rattle.spin_table.specs.Renewals.{live_numbers, renewed};
ghost use Rattle.spin_seat.specs.Replay.{IsCleanFrom};
ghost use Rattle.spin_seat.specs.Seats.{SeatValue, IsSeatFrom, AreFrom};
ghost use Rattle.spin_seat.specs.Weaves.{AnswersAreLegalFrom};
ghost use Rattle.spin_seat.specs.Homes.{AreFor, IsKeyOf};
ghost use Rattle.spin_seat.specs.RenewedHubs.{AreAllSeats, FirstKnowsAll, KnowMore, IsFaultOf, IsRenewal};

use crate::hub::Hub;
use crate::live::live_below;
use crate::renew::{Moved, Ready};
use crate::seat::{Seat, Seats};
use spin_code::Sincere;
use spin_log::Rows;
use spin_objects::Catalogue;
use spin_values::{NoMemory, Numbers};
use std::alloc::Global;
use thiserror::Error;

/// A hub that was renewed.
#[derive(Drop)]
pub struct Renewal {
    /// The hub, over a new log.
    pub hub: Hub,
    /// Its seats, in the order of lanes.
    pub seats: Seats,
    /// The rows of the log that was closed.
    pub rows: Rows,
    /// The numbers that the live bindings had, rising: that at index k, from 0, is now k + 1.
    pub live: Numbers,
}

/// A hub that was not renewed, with its seats. They go on.
#[derive(Drop)]
pub struct Unrenewed {
    /// Why it was not renewed.
    pub fault: RenewFault,
    /// The hub as it was.
    pub hub: Hub,
    /// Its seats, each of which may have read further rows.
    pub seats: Seats,
}

/// The seats of a hub that was not renewed in place, and is as it was. They go on.
#[derive(Drop)]
pub struct Stayed {
    /// Why it was not renewed.
    pub fault: RenewFault,
    /// Its seats, each of which may have read further rows.
    pub seats: Seats,
}

/// Why a hub isn't renewed.
#[derive(Debug, Clone, Copy, PartialEq, Eq, Error)]
pub enum RenewFault {
    /// [`MAX_PLACE`](spin_word::MAX_PLACE) bindings are live, so that a new log would have no room.
    #[error("no room is left by a renewal")]
    Full,
    /// There was no memory for all that is new.
    #[error("out of memory")]
    NoMemory,
}

impl From<NoMemory> for RenewFault {
    ghost use Rattle.std.specs.Prelude.{◌≡◌};
    ghost use Rattle.spin_seat.specs.declared.renewal.RenewFault.TheVariants as fault;

    ghost from_gives = { λ _ e. e ≡ fault.NoMemory };

    fn from(_: NoMemory) -> RenewFault {
        RenewFault::NoMemory
    }
}

impl Hub {
    // Lets the first seat learn what all know, and gets all that a renewal of its version needs.
    fn prepare(&self, alloc: Global, seats: &mut [Seat]) -> Result<Ready, RenewFault>
        requires sincere { ⟦<Catalogue as Sincere>⟧.sincere self.now.setup.catalogue }
        requires all { AreAllSeats (data_of self.now.setup) self.now.log seats.old }
        ensures more { KnowMore (data_of self.now.setup) seats.old seats.new }
        ensures knows { OnOk result (FirstKnowsAll seats.new) }
        ensures lanes { IfOk result (λ ready. ready.log.lanes ≡ self.now.log.lanes) }
        ensures pens { IfOk result (λ ready.
            map (λ seat. seat.pen) ready.seats ≡ new_pens ready.log.id self.now.log.lanes) }
        ensures seats { let d = data_of self.now.setup in
            IfOk result (λ ready. (seat : SeatValue) →
            All (IsSeatFrom d (renewed (slice_index_or seats.new 0 seat).state)) ready.seats) }
        ensures live { IfOk result (λ ready. (seat : SeatValue) →
            ready.live ≡ live_numbers (slice_index_or seats.new 0 seat).state) }
        ensures left { IfOk result (λ ready. length ready.live < MAX_PLACE) }
        ensures key { let d = data_of self.now.setup in
            IfOk result (λ ready. (seat : SeatValue) →
            IsKeyOf ready.homes.table.shared.key ready.log.id d (renewed (slice_index_or seats.new 0 seat).state)) }
        ensures homes { IfOk result (λ ready.
            AreFor self.now.log.lanes ready.homes.table.shared.table_id ready.tickets) }
        ensures room { IfOk result (λ ready. self.now.log.lanes ≤ vec_capacity ready.room.pens) }
        ensures fault { let d = data_of self.now.setup in
            (first : State) → AreFrom first seats.old
            → IfErr result (λ fault. IsFaultOf d first seats.new fault) }
    {
        self.gather(alloc, seats)?;
        let lanes = seats[seats.len() - 1].lane() + 1;
        let first = &seats[0];
        let live = live_below(alloc, &self.setup, &first.version)?;
        Ok(self.ready(alloc, first, live, lanes)?)
    }

    // Goes on over a new log, in place, as [`Hub::renew`] says; and makes the homes of the new seats, which whoever shares
    // the hub by handles keeps beside it. After a fault the hub is as it was.
    pub(crate) fn renew_in(&mut self, alloc: Global, seats: Seats) -> Result<Moved, Stayed>
        requires sincere { ⟦<Catalogue as Sincere>⟧.sincere self.old.setup.catalogue }
        requires all { AreAllSeats (data_of self.old.setup) self.old.log seats }
        ensures all { let d = data_of self.old.setup in
            MatchResult result
            (λ done. AreAllSeats d self.new.log done.seats)
            (λ left. AreAllSeats d self.new.log left.seats) }
        ensures setup { self.new.setup ≡ self.old.setup }
        ensures log { MatchResult result
            (λ _. self.new.log.lanes ≡ self.old.log.lanes)
            (λ _. self.new.log ≡ self.old.log) }
        ensures pens { IfOk result (λ done.
            map (λ seat. seat.pen) done.seats ≡ new_pens self.new.log.id self.old.log.lanes) }
        ensures key { let d = data_of self.old.setup in
            IfOk result (λ done. (first : State) → AreFrom first done.seats
            → IsKeyOf done.homes.table.shared.key self.new.log.id d first) }
        ensures homes { IfOk result (λ done.
            AreFor self.old.log.lanes done.homes.table.shared.table_id done.tickets) }
        ensures more { IfErr result (λ left. KnowMore (data_of self.old.setup) seats left.seats) }
        ensures fault { let d = data_of self.old.setup in
            (first : State) → AreFrom first seats
            → IfErr result (λ left. IsFaultOf d first left.seats left.fault) }
        ensures renewed { let d = data_of self.old.setup in
            (first : State) → AreFrom first seats
            → IfOk result (λ done. IsRenewal d first done.rows done.live done.seats) }
        ensures clean { (first : State) → AreFrom first seats
            → IfOk result (λ done. IsCleanFrom (data_of self.old.setup) first done.rows) }
        ensures legal { (first : State) → AreFrom first seats
            → IfOk result (λ done. AnswersAreLegalFrom (data_of self.old.setup) first seats done.rows) }
        ensures each { IfOk result (λ done. All (λ seat. StandsIn done.rows seat.pen) seats) }
        ensures history { let pens = map (λ seat. seat.pen) seats in
            IfOk result (λ done. (moments : List LogAction) × IsHistory done.rows pens moments) }
        ensures rows { IfOk result (λ done.
            All (IsCommandBelow self.old.log.lanes) done.rows × (length done.rows ≤ MAX_PLACE)) }
    {
        let mut items = seats.into_vec();
        let ready = self.prepare(alloc, items.as_mut_slice());
        let seats = Seats::from_vec(items);
        match ready {
            Ok(ready) => Ok(self.go_on(ready, seats)),
            Err(fault) => Err(Stayed { fault, seats }),
        }
    }

    /// Goes on over a new, empty log, with room for [`MAX_PLACE`] commands less one for each live binding: a hub lasts
    /// as long as its host renews it. All seats of the hub are handed in, the k-th being lane k's. The new seats are
    /// all at one version: that to which all the history of the old ones leads, renewed. So nothing is lost that is
    /// bound: the live bindings are numbered anew from 1 on in the order of their numbers, their constraints on
    /// bindings that aren't live lapse, and all else stays, as [`Version::renewed`](spin_table::Version::renewed) says.
    /// The rows of the old log are those that [`Hub::close`] answers, and as clean; [`Renewal::live`] has the numbers
    /// that the bindings had. The law [`renewals_go_on`](crate::renewals_go_on) makes the histories before and after it
    /// one.
    ///
    /// `Full` exactly where [`MAX_PLACE`] bindings are live. Want of memory may come before that is known, since the first
    /// seat learns what all know; where it knows that already, want of memory comes only where fewer are live. After a
    /// fault nothing is lost: the hub is as it was, and of its seats each may have read rows of other lanes, as by
    /// [`Hub::meet`], and all else of them is as before.
    ///
    /// It asks no authority and judges nothing again. It waits for nobody, and all memory is got before the old log is
    /// closed: beside the renewed version 164 kB and for each lane 131 kB more. It takes time linear in the rows, in
    /// the words of the new log and in the bindings, beside the making of the lists of each event that has bindings.
    pub fn renew(self, alloc: Global, seats: Seats) -> Result<Renewal, Unrenewed>
        requires sincere { ⟦<Catalogue as Sincere>⟧.sincere self.setup.catalogue }
        requires all { AreAllSeats (data_of self.setup) self.log seats }
        ensures all { let d = data_of self.setup in
            MatchResult result
            (λ done. AreAllSeats d done.hub.log done.seats)
            (λ left. AreAllSeats d left.hub.log left.seats) }
        ensures setup { MatchResult result
            (λ done. done.hub.setup ≡ self.setup)
            (λ left. left.hub.setup ≡ self.setup) }
        ensures log { MatchResult result
            (λ done. done.hub.log.lanes ≡ self.log.lanes)
            (λ left. left.hub.log ≡ self.log) }
        ensures pens { IfOk result (λ done.
            map (λ seat. seat.pen) done.seats ≡ new_pens done.hub.log.id self.log.lanes) }
        ensures more { IfErr result (λ left. KnowMore (data_of self.setup) seats left.seats) }
        ensures fault { let d = data_of self.setup in
            (first : State) → AreFrom first seats
            → IfErr result (λ left. IsFaultOf d first left.seats left.fault) }
        ensures renewed { let d = data_of self.setup in
            (first : State) → AreFrom first seats
            → IfOk result (λ done. IsRenewal d first done.rows done.live done.seats) }
        ensures clean { (first : State) → AreFrom first seats
            → IfOk result (λ done. IsCleanFrom (data_of self.setup) first done.rows) }
        ensures legal { (first : State) → AreFrom first seats
            → IfOk result (λ done. AnswersAreLegalFrom (data_of self.setup) first seats done.rows) }
        ensures each { IfOk result (λ done. All (λ seat. StandsIn done.rows seat.pen) seats) }
        ensures history { let pens = map (λ seat. seat.pen) seats in
            IfOk result (λ done. (moments : List LogAction) × IsHistory done.rows pens moments) }
        ensures rows { IfOk result (λ done.
            All (IsCommandBelow self.log.lanes) done.rows × (length done.rows ≤ MAX_PLACE)) }
    {
        let mut hub = self;
        match hub.renew_in(alloc, seats) {
            Ok(moved) => {
                let Moved {
                    seats,
                    rows,
                    live,
                    ..
                } = moved;
                Ok(Renewal {
                    hub,
                    seats,
                    rows,
                    live,
                })
            }
            Err(stayed) => {
                let Stayed { fault, seats } = stayed;
                Err(Unrenewed { fault, hub, seats })
            }
        }
    }
}
