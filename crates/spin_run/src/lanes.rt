//! All lanes of a segment, side by side.

ghost use Rattle.std.specs.Prelude.{◌≡◌, ◌<◌, ◌≤◌, ◌++◌, ℕ, [], ◌∷◌, map, length, slice_get};
ghost use Rattle.std.specs.Prelude.{List, Some, All, IfOk, OnOk, OnErr, MatchOption};
ghost use Rattle.spin_word.specs.declared.command.TheConstants.{MAX_LANES};
ghost use Rattle.atomic_table.specs.Seated.{TableId};
ghost use Rattle.spin_log.specs.Pens.{new_pens};
ghost use Rattle.spin_objects.specs.Units.{IsSincereBy};
ghost use Rattle.spin_table.specs.Setups.{SetupData};
ghost use Rattle.spin_table.specs.SetupOf.{data_of};
ghost use Rattle.spin_table.specs.States.{State};
ghost use Rattle.spin_seat.specs.Seats.{IsSeatFrom};
ghost use Rattle.spin_report.specs.declared.entry.Entry.{Entry};
ghost use Rattle.spin_report.specs.Segments.{asked_in};
ghost use Rattle.spin_run.specs.Kept.{keeping};
ghost use Rattle.spin_run.specs.Lanes.{HasRunLane};
ghost use Rattle.spin_run.specs.Segments.{IsAtRest, AreAtRest, AreReady, IsFitSegment, HaveRun, front_of, first_of, state_of};
ghost use Rattle.spin_run.specs.Inner.Answering.{AreFresh};

use crate::lane::Lane;
use spin_code::Sincere;
use spin_objects::Catalogue;
use spin_outside::Gate;
use spin_pcap::Frames;
use spin_report::Entries;
use spin_script::{Line, Segment};
use spin_seat::{Hub, Seats};
use spin_values::NoMemory;
use spin_word::{MAX_LANES, Work};
use std::alloc::Global;
use std::marker::Model;
use std::mem::size_of_val;
use std::thread;
use std::thread::Threads;

/// Lanes in order, the k-th being lane k. Contracts see the list of them.
#[derive(Drop)]
pub struct Lanes {
    pub(crate) items: Vec<Lane>,
}

impl Model for Lanes {
    ghost use Rattle.std.specs.Prelude.{List};
    ghost use Rattle.std.specs.Coded.{codes};
    ghost use Rattle.spin_code.specs.contracts.test.Test as test;
    ghost use Rattle.spin_run.specs.declared.lane.Lane.{Lane};

    ghost Value = { List Lane };

    ghost coded = { Prim.hlevel (codes, test.the_row.coded) };

    ghost view = { λ l. l.items.items };
}

impl Lanes {
    /// No lane. It takes no memory until one is added.
    pub fn new(alloc: Global) -> Lanes
        ensures { result ≡ [] }
    {
        Lanes {
            items: Vec::new(alloc),
        }
    }

    /// Adds the lane at the end. After want of memory the lanes are unchanged, and this one is dropped.
    pub fn push(&mut self, lane: Lane) -> Result<(), NoMemory>
        ensures ok { OnOk result (self.new ≡ self.old ++ lane ∷ []) }
        ensures err { OnErr result (self.new ≡ self.old) }
    {
        self.items.push(lane)?;
        Ok(())
    }

    /// The number of lanes.
    pub fn len(&self) -> usize
        ensures { result ≡ length self.now }
    {
        self.items.len()
    }

    /// The lane at a place that is there, counted from 0.
    pub fn get(&self, at: usize) -> &Lane
        requires { at < length self.now }
        ensures { slice_get self.now at ≡ Some result.now }
    {
        &self.items[at]
    }

    /// All lanes in order.
    pub fn as_slice(&self) -> &[Lane]
        ensures { result.now ≡ self.now }
    {
        self.items.as_slice()
    }

    /// Takes the first lane out; `None` exactly where there is none. It takes no memory.
    pub fn take_first(&mut self) -> Option<Lane>
        ensures { MatchOption result
            ((self.old ≡ []) × (self.new ≡ []))
            (λ first. self.old ≡ first ∷ self.new) }
    {
        if self.items.is_empty() {
            return None;
        }
        Some(self.items.remove(0))
    }

    /// A lane for each seat of a hub over a new log, as [`Hub::new`] and [`Hub::renew`] make them: so the log follows on
    /// whatever state its seats have as their first.
    pub fn of_seats(alloc: Global, _hub: &Hub, seats: Seats) -> Result<Lanes, NoMemory>
        requires some { 0 < _hub.now.log.lanes }
        requires few { _hub.now.log.lanes ≤ MAX_LANES }
        requires pens { let pens = map (λ seat. seat.pen) seats in
            pens ≡ new_pens _hub.now.log.id _hub.now.log.lanes }
        requires seats { (first : State) × All (IsSeatFrom (data_of _hub.now.setup) first) seats }
        ensures ready { let d = data_of _hub.now.setup in
            IfOk result (λ lanes. AreReady d _hub.now.log.id _hub.now.log.lanes lanes) }
        ensures given { IfOk result (λ lanes. map (λ lane. lane.seat) lanes ≡ seats) }
        ensures front { IfOk result (λ lanes. front_of lanes ≡ []) }
        ensures first { let d = data_of _hub.now.setup in
            (first : State) → All (IsSeatFrom d first) seats
            → IfOk result (λ lanes. (first_of d lanes ≡ first) × (state_of d lanes ≡ first)) }
    {
        Ok(Lanes {
            items: each_seat(alloc, seats)?,
        })
    }

    /// From now on each lane keeps the entries that it gives, until they are taken out. It takes no memory, and drops
    /// what was kept.
    pub fn keep_entries(&mut self, alloc: Global)
        ensures lanes { self.new ≡ map keeping self.old }
        ensures ready { (d : SetupData) (log : TableId) (count : ℕ)
            → AreReady d log count self.old → AreReady d log count self.new }
    {
        self.keep_all(alloc);
    }

    fn keep_all(&mut self, alloc: Global)
        ensures { self.new ≡ map keeping self.old }
    {
        for lane in self.items.iter_mut() {
            lane.entries = Some(Entries::new(alloc));
        }
    }
}

// A lane for each seat, in order.
fn each_seat(alloc: Global, seats: Seats) -> Result<Vec<Lane>, NoMemory>
    ensures seats { IfOk result (λ lanes. map (λ lane. lane.seat) lanes.items ≡ seats) }
    ensures fresh { IfOk result (λ lanes. AreFresh lanes.items) }
{
    let mut seats = seats;
    let mut lanes = Vec::with_capacity(alloc, seats.len())?;
    while let Some(seat) = seats.take_first() {
        lanes.push(Lane::new(alloc, seat))?;
    }
    Ok(lanes)
}

/// A segment of at most so many lines, all of them deeds, is short: to start a thread costs more than what a lane does
/// in it.
const SHORT: usize = 64;

// Whether a segment of these lines is short. Without a command no lane sees what another does: each raise stands at the
// place that all know from the start, so the history is the same one however the lanes go.
fn is_short(lines: &[Line]) -> bool {
    lines.len() <= SHORT && lines.iter().all(|line| matches!(line.work, Work::Deed(_)))
}

// How many threads serve a segment of these lines: one where a single lane has them all, since the others have nothing
// to do, or where it is short, unless the gate may hold up lanes until others have passed. For that it needs a value to
// look at, so a gate without any size can't. It looks at the lines up to the first of another lane.
fn threads_for<G: Gate>(lines: &[Line], gate: &G) -> usize
    ensures { 0 < result }
{
    let may_hold = size_of_val(gate) != 0;
    match lines.first() {
        Some(first)
            if (may_hold || !is_short(lines)) && lines.iter().any(|line| line.lane != first.lane) =>
            { usize::from(MAX_LANES) }
        _ => 1,
    }
}

/// Runs the lanes side by side, each on a thread of its own where one can be started; where one lane has all lines of
/// the segment, the caller's thread runs them all. So it does where the segment has at most 64 lines, all of them deeds,
/// whose history is the same however the lanes go, and the gate's type has no size: such a gate holds up no lane until
/// another has passed, for which it needs a value to look at. Of each lane there is what [`Lane::run`] says of it, and
/// nothing more. It waits for the end of all lanes.
pub fn run_lanes<R: Threads + Sync, G: Gate>(
    rt: &R,
    alloc: Global,
    hub: &Hub,
    lanes: &mut Lanes,
    segment: &Segment,
    frames: &Frames,
    gate: &G,
)
    requires sincere { ⟦<Catalogue as Sincere>⟧.sincere hub.now.setup.catalogue }
    requires ready { let d = data_of hub.now.setup in
        AreAtRest d hub.now.log.id hub.now.log.lanes lanes.old }
    requires lines { IsFitSegment (length lanes.old) segment.now.lines }
    ensures { let asked = asked_in segment.now.lines frames.now in
        (trails : List (List Entry)) × HaveRun (data_of hub.now.setup) asked lanes.old lanes.new trails }
{
    thread::for_each_mut(
        rt,
        lanes.items.as_mut_slice(),
        threads_for(segment.lines.as_slice(), gate),
        &|_, lane: &mut Lane|
            requires sincere { IsSincereBy does asks follows hub.now.setup.catalogue.natives }
            requires ready { let d = data_of hub.now.setup in
                let seat = lane.old.seat in
                IsAtRest d hub.now.log.id hub.now.log.lanes seat.base seat.pen.front lane.old }
            requires lines { IsFitSegment hub.now.log.lanes segment.now.lines }
            ensures { let asked = asked_in segment.entry.now.lines frames.entry.now in
                (entries : List Entry) × HasRunLane (data_of hub.entry.now.setup) asked lane.old lane.new entries }
        { lane.run(alloc, hub, segment, frames, gate) },
    );
}
