//! What all seats share.

ghost use Rattle.std.specs.Prelude.{◌≡◌, ◌<◌, ◌≤◌, All, map, length, None, IfOk, OnOk, MatchResult};
ghost use Rattle.spin_word.specs.declared.command.TheConstants.{MAX_LANES};
ghost use Rattle.spin_log.specs.Pens.{IsPen, IsSamePen, with_front, new_pens};
ghost use Rattle.spin_log.specs.Steps.{longer};
ghost use Rattle.spin_table.specs.SetupOf.{data_of};
ghost use Rattle.spin_seat.specs.Seats.{IsSeat, IsSeatOf, AreOfLanes};
ghost use Rattle.spin_seat.specs.Calls.{ReadsOn};

use crate::seat::{Seat, Seats};
use crate::seats::seats_of;
use spin_code::Sincere;
use spin_log::Log;
use spin_objects::Catalogue;
use spin_table::{Setup, Version};
use spin_values::NoMemory;
use std::alloc::Global;
use std::sync::Arc;

/// The log, and the setup that never changes. Seats share it by reference.
#[derive(Drop)]
pub struct Hub {
    pub(crate) log: Log,
    pub(crate) setup: Setup,
}

impl Hub {
    /// One seat for each lane, from 1 lane to [`MAX_LANES`](spin_word::MAX_LANES): the k-th, from
    /// 0, is that of lane k, and is new, at the start version, which they share. After want of
    /// memory the setup is gone.
    pub fn new(alloc: Global, setup: Setup, lanes: u8) -> Result<(Hub, Seats), NoMemory>
        requires some { 0 < lanes }
        requires few { lanes ≤ MAX_LANES }
        ensures setup { IfOk result (λ made. made.0.setup ≡ setup) }
        ensures lanes { IfOk result (λ made. made.0.log.lanes ≡ lanes) }
        ensures pens { IfOk result (λ made. map (λ seat. seat.pen) made.1 ≡ new_pens made.0.log.id lanes) }
        ensures seats { IfOk result (λ made. All (IsSeatOf (data_of setup)) made.1) }
        ensures own { IfOk result (λ made. All (λ seat. seat.pen.log ≡ made.0.log.id) made.1) }
        ensures all { IfOk result (λ made. length made.1 ≡ lanes) }
        ensures order { IfOk result (λ made. AreOfLanes 0 made.1) }
    {
        let (log, pens) = Log::new(alloc, lanes)?;
        let start = Version::start(alloc, &setup)?;
        let first = Arc::new(alloc, start)?;
        let seats = seats_of(alloc, &setup, &first, pens)?;
        Ok((Hub { log, setup }, seats))
    }

    /// The setup. It takes no memory.
    pub fn setup(&self) -> &Setup
        ensures { result.now ≡ self.now.setup }
    {
        &self.setup
    }

    /// Lets two seats know what each other knows: of the two fronts one begins the other, and
    /// afterwards both seats have the longer one and share its version, with no row left to apply.
    /// Own rows and pins stay, so each seat has read rows of other lanes and no more.
    /// After want of memory both fronts are as before. It waits for nobody, and applies at most one
    /// row for each seat. The seats' log is the hub's, the seats are those of the hub's setup with one
    /// first state, and the catalogue's objects do what they were handed in with.
    pub fn meet(&self, alloc: Global, a: &mut Seat, b: &mut Seat) -> Result<(), NoMemory>
        requires sincere { ⟦<Catalogue as Sincere>⟧.sincere self.now.setup.catalogue }
        requires log_a { a.old.pen.log ≡ self.now.log.id }
        requires log_b { b.old.pen.log ≡ self.now.log.id }
        requires seat_a { IsSeat (data_of self.now.setup) a.old }
        requires seat_b { IsSeat (data_of self.now.setup) b.old }
        requires first { b.old.base ≡ a.old.base }
        ensures seat_a { IsSeat (data_of self.now.setup) a.new }
        ensures seat_b { IsSeat (data_of self.now.setup) b.new }
        ensures first { (a.new.base ≡ a.old.base) × (b.new.base ≡ b.old.base) }
        ensures a { let front = longer a.old.pen.front b.old.pen.front in
            MatchResult result
            (λ _. a.new.pen ≡ with_front a.old.pen front)
            (λ _. a.new.pen ≡ a.old.pen) }
        ensures b { let front = longer a.old.pen.front b.old.pen.front in
            MatchResult result
            (λ _. b.new.pen ≡ with_front b.old.pen front)
            (λ _. b.new.pen ≡ b.old.pen) }
        ensures same { IsSamePen a.old.pen a.new.pen × IsSamePen b.old.pen b.new.pen }
        ensures state { OnOk result (a.new.state ≡ b.new.state) }
        ensures whole { OnOk result ((a.new.pending ≡ None) × (b.new.pending ≡ None)) }
        ensures reads { OnOk result
            (ReadsOn a.old.pen a.new.pen × ReadsOn b.old.pen b.new.pen) }
        ensures pens { OnOk result (IsPen a.new.pen × IsPen b.new.pen) }
    {
        a.apply(alloc, self)?;
        b.apply(alloc, self)?;
        if a.front() < b.front() {
            a.learn(self, b)
        } else {
            b.learn(self, a)
        }
    }
}
