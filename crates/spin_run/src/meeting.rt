//! After a segment all seats meet.

ghost use Rattle.std.specs.Prelude.{◌≡◌, ◌<◌, length, map, OnOk};
ghost use Rattle.spin_table.specs.SetupOf.{data_of};
ghost use Rattle.spin_run.specs.Meetings.{AreOfHub, HaveMet};
ghost use Rattle.spin_run.specs.Inner.Meeting.{FirstIsSettled, SettledFirst, Met, HadRound};

use crate::lane::Lane;
use crate::lanes::Lanes;
use spin_code::Sincere;
use spin_objects::Catalogue;
use spin_seat::Hub;
use spin_values::NoMemory;
use std::alloc::Global;

impl Lanes {
    // Lets all seats meet, once the lanes have run: afterwards each knows what all of them know, keeps no row, and has
    // the same state. What the lanes answered is as before. After want of memory nothing is said of that, but that each
    // lane's stop is as before.
    pub(crate) fn meet(&mut self, alloc: Global, hub: &Hub) -> Result<(), NoMemory>
        requires sincere { ⟦<Catalogue as Sincere>⟧.sincere hub.now.setup.catalogue }
        requires some { 0 < length self.old }
        requires seats { AreOfHub (data_of hub.now.setup) hub.now.log.id self.old }
        ensures met { OnOk result (HaveMet (data_of hub.now.setup) self.old self.new) }
        ensures stops { map (λ lane. lane.stop) self.new ≡ map (λ lane. lane.stop) self.old }
    {
        meet_all(alloc, hub, self.items.as_mut_slice())
    }
}

// The same of a list. In one round the first lane learns what each lane knows, and in a second round it tells that to
// each.
fn meet_all(alloc: Global, hub: &Hub, lanes: &mut [Lane]) -> Result<(), NoMemory>
    requires sincere { ⟦<Catalogue as Sincere>⟧.sincere hub.now.setup.catalogue }
    requires some { 0 < length lanes.old }
    requires seats { AreOfHub (data_of hub.now.setup) hub.now.log.id lanes.old }
    ensures met { OnOk result (HaveMet (data_of hub.now.setup) lanes.old lanes.new) }
    ensures stops { map (λ lane. lane.stop) lanes.new ≡ map (λ lane. lane.stop) lanes.old }
{
    settle_first(alloc, hub, lanes)?;
    meet_each(alloc, hub, lanes)?;
    meet_each(alloc, hub, lanes)
}

// Lets the first lane apply what it has read.
fn settle_first(alloc: Global, hub: &Hub, lanes: &mut [Lane]) -> Result<(), NoMemory>
    requires sincere { ⟦<Catalogue as Sincere>⟧.sincere hub.now.setup.catalogue }
    requires some { 0 < length lanes.old }
    requires seats { AreOfHub (data_of hub.now.setup) hub.now.log.id lanes.old }
    ensures settled { OnOk result (SettledFirst (data_of hub.now.setup) lanes.old lanes.new) }
    ensures stops { map (λ lane. lane.stop) lanes.new ≡ map (λ lane. lane.stop) lanes.old }
{
    lanes[0].seat.apply(alloc, hub)
}

// Lets the first lane meet each other one.
fn meet_each(alloc: Global, hub: &Hub, lanes: &mut [Lane]) -> Result<(), NoMemory>
    requires sincere { ⟦<Catalogue as Sincere>⟧.sincere hub.now.setup.catalogue }
    requires some { 0 < length lanes.old }
    requires seats { AreOfHub (data_of hub.now.setup) hub.now.log.id lanes.old }
    requires first { FirstIsSettled lanes.old }
    ensures round { OnOk result (HadRound (data_of hub.now.setup) lanes.old lanes.new) }
    ensures stops { map (λ lane. lane.stop) lanes.new ≡ map (λ lane. lane.stop) lanes.old }
{
    for k in 1..lanes.len() {
        meet_first(alloc, hub, lanes, k)?;
    }
    Ok(())
}

// Lets the first lane meet lane k.
fn meet_first(alloc: Global, hub: &Hub, lanes: &mut [Lane], k: usize) -> Result<(), NoMemory>
    requires sincere { ⟦<Catalogue as Sincere>⟧.sincere hub.now.setup.catalogue }
    requires after { 0 < k }
    requires inside { k < length lanes.old }
    requires seats { AreOfHub (data_of hub.now.setup) hub.now.log.id lanes.old }
    ensures met { OnOk result (Met (data_of hub.now.setup) lanes.old k lanes.new) }
    ensures stops { map (λ lane. lane.stop) lanes.new ≡ map (λ lane. lane.stop) lanes.old }
{
    let (left, right) = lanes.split_at_mut(k);
    hub.meet(alloc, &mut left[0].seat, &mut right[0].seat)
}
