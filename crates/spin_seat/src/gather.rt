//! The first seat learns what all seats know.

ghost use Rattle.std.specs.Prelude.{◌≡◌, ◌<◌, All, OnOk, OnErr, length, slice_index_or};
ghost use Rattle.spin_table.specs.SetupOf.{data_of};
ghost use Rattle.spin_seat.specs.Seats.{SeatValue, IsSeat, IsSeatFrom, AreFrom};
ghost use Rattle.spin_seat.specs.RenewedHubs.{KnowsMore, KnowMore, KnowsAllOf, FirstKnowsAll};

use crate::hub::Hub;
use crate::seat::Seat;
use spin_code::Sincere;
use spin_objects::Catalogue;
use spin_values::NoMemory;
use std::alloc::Global;

impl Hub {
    // Lets the seat meet each of the others that has read more. After want of memory one of them still has, or the seat
    // keeps a row.
    fn meet_each(
        &self,
        alloc: Global,
        first: &mut Seat,
        others: &mut [Seat],
    ) -> Result<(), NoMemory>
        requires sincere { ⟦<Catalogue as Sincere>⟧.sincere self.now.setup.catalogue }
        requires log { first.old.pen.log ≡ self.now.log.id }
        requires logs { All (λ seat. seat.pen.log ≡ self.now.log.id) others.old }
        requires seat { IsSeat (data_of self.now.setup) first.old }
        requires seats { All (IsSeatFrom (data_of self.now.setup) first.old.base) others.old }
        ensures first { KnowsMore (data_of self.now.setup) first.old first.new }
        ensures others { KnowMore (data_of self.now.setup) others.old others.new }
        ensures ok { OnOk result (KnowsAllOf first.new others.new) }
        ensures err { OnErr result (KnowsAllOf first.new others.new → ⊥) }
    {
        first.apply(alloc, self)?;
        for k in 0..others.len() {
            if first.front() < others[k].front() {
                self.meet(alloc, first, &mut others[k])?;
            }
        }
        Ok(())
    }

    // Lets the first seat learn what all seats of the hub know, and apply it. After want of memory it knows some of it,
    // and not all.
    pub(crate) fn gather(&self, alloc: Global, seats: &mut [Seat]) -> Result<(), NoMemory>
        requires sincere { ⟦<Catalogue as Sincere>⟧.sincere self.now.setup.catalogue }
        requires some { 0 < length seats.old }
        requires logs { All (λ seat. seat.pen.log ≡ self.now.log.id) seats.old }
        requires seats { All (IsSeat (data_of self.now.setup)) seats.old }
        requires one { (seat : SeatValue) → AreFrom (slice_index_or seats.old 0 seat).base seats.old }
        ensures seats { KnowMore (data_of self.now.setup) seats.old seats.new }
        ensures ok { OnOk result (FirstKnowsAll seats.new) }
        ensures err { OnErr result (FirstKnowsAll seats.new → ⊥) }
    {
        let (left, right) = seats.split_at_mut(1);
        self.meet_each(alloc, &mut left[0], right)
    }
}
