//! Lanes that a host makes of seats, runs and takes apart again.

ghost use Rattle.std.specs.Prelude.{◌≡◌, ◌<◌, map, length, IfOk};
ghost use Rattle.std.specs.List.{All};
ghost use Rattle.spin_log.specs.Pens.{new_pens};
ghost use Rattle.spin_table.specs.SetupOf.{data_of};
ghost use Rattle.spin_table.specs.States.{State};
ghost use Rattle.spin_script.specs.States.{deed_count};
ghost use Rattle.spin_script.specs.Soundness.{IsValidWork};
ghost use Rattle.spin_script.specs.Segments.{IsOnLane};
ghost use Rattle.spin_seat.specs.Seats.{IsSeatFrom, AreOfLanes};
ghost use Rattle.spin_run.specs.Lanes.{IsFresh};
ghost use Rattle.spin_run.specs.Segments.{IsFitSegment};
ghost use Rattle.spin_run.specs.Meetings.{AreOfHub};

use crate::seats::{count_of, install_of, setup};
use spin_code::Sincere;
use spin_log::Rows;
use spin_objects::Catalogue;
use spin_outside::OpenGate;
use spin_run::{Frames, Kind, Lane, Lanes, run_lanes};
use spin_script::{Line, Lines, Segment};
use spin_seat::{Hub, Seats};
use spin_values::{NoMemory, Numbers};
use spin_word::{Work, pack};
use std::alloc::Global;
use std::test::Fail;
use std::thread::Threads;

// The line of this number, in which the lane installs.
fn line_of(number: u32, lane: u8) -> Line
    requires { lane < 2 }
    ensures number { result.number ≡ number }
    ensures lane { IsOnLane 2 result }
    ensures valid { IsValidWork result.work }
    ensures one { deed_count result.work ≡ 1 }
{
    Line {
        number,
        lane,
        work: Work::Command(install_of(lane)),
    }
}

// A segment in which each of two lanes installs.
fn both_install(alloc: Global) -> Result<Segment, NoMemory>
    ensures { IfOk result (λ segment. IsFitSegment 2 segment.lines) }
{
    Ok(Segment {
        retires: Numbers::new(alloc),
        lines: Lines::from_vec(vec![in alloc; line_of(1, 0), line_of(2, 1)]?),
    })
}

// A lane for each seat, in order.
fn lanes_of(alloc: Global, seats: Seats) -> Result<Lanes, NoMemory>
    ensures seats { IfOk result (λ lanes. map (λ lane. lane.seat) lanes ≡ seats) }
    ensures fresh { IfOk result (All IsFresh) }
{
    let mut seats = seats;
    let mut lanes = Lanes::new(alloc);
    while let Some(seat) = seats.take_first() {
        lanes.push(Lane::new(alloc, seat))?;
    }
    Ok(lanes)
}

// The seats of lanes, in order.
fn seats_of(alloc: Global, lanes: Lanes) -> Result<Seats, NoMemory>
    ensures { IfOk result (λ seats. seats ≡ map (λ lane. lane.seat) lanes) }
{
    let mut lanes = lanes;
    let mut seats = Seats::new(alloc);
    while let Some(lane) = lanes.take_first() {
        seats.push(lane.seat)?;
    }
    Ok(seats)
}

// The lanes of a hub's new seats, once they have run.
fn run_over<R: Threads + Sync>(
    rt: &R,
    alloc: Global,
    hub: &Hub,
    seats: Seats,
    segment: &Segment,
) -> Result<Lanes, NoMemory>
    requires sincere { ⟦<Catalogue as Sincere>⟧.sincere hub.now.setup.catalogue }
    requires two { hub.now.log.lanes ≡ 2 }
    requires pens { map (λ seat. seat.pen) seats ≡ new_pens hub.now.log.id 2 }
    requires seats { (first : State) × All (IsSeatFrom (data_of hub.now.setup) first) seats }
    requires lines { IsFitSegment 2 segment.now.lines }
    ensures two { IfOk result (λ lanes. length lanes ≡ 2) }
    ensures own { IfOk result (AreOfHub (data_of hub.now.setup) hub.now.log.id) }
    ensures order { IfOk result (λ lanes. AreOfLanes 0 (map (λ lane. lane.seat) lanes)) }
{
    let mut lanes = lanes_of(alloc, seats)?;
    let frames = Frames::new(alloc);
    run_lanes(rt, alloc, hub, &mut lanes, segment, &frames, &OpenGate);
    Ok(lanes)
}

// The place of the lane's one entry, where that is its install, which was accepted.
fn installed_at(lane: &Lane) -> Option<u16> {
    match lane.trail.marks.as_slice() {
        [mark] if matches!(mark.kind, Kind::Accepted) => Some(mark.place),
        _ => None,
    }
}

// Whether each of two lanes has installed, the one at place 1 and the other at place 2.
fn have_installed(lanes: &Lanes) -> bool
    requires { length lanes.now ≡ 2 }
{
    let places = (installed_at(lanes.get(0)), installed_at(lanes.get(1)));
    let are_whole = lanes.as_slice().iter().all(|lane| lane.stop.is_none());
    are_whole && matches!(places, (Some(1), Some(2)) | (Some(2), Some(1)))
}

// The whole log, from the seats of a hub's lanes.
fn close(alloc: Global, hub: Hub, lanes: Lanes) -> Result<Rows, NoMemory>
    requires two { (hub.log.lanes ≡ 2) × (length lanes ≡ 2) }
    requires own { AreOfHub (data_of hub.setup) hub.log.id lanes }
    requires order { AreOfLanes 0 (map (λ lane. lane.seat) lanes) }
{
    let seats = seats_of(alloc, lanes)?;
    hub.close(alloc, seats)
}

// Whether both lanes have installed, and the whole log.
fn play<R: Threads + Sync>(rt: &R, alloc: Global) -> Result<(bool, Rows), Fail> {
    let segment = both_install(alloc)?;
    let (hub, seats) = Hub::new(alloc, setup(alloc)?, 2)?;
    let lanes = run_over(rt, alloc, &hub, seats, &segment)?;
    let have_installed = lanes.len() == 2 && have_installed(&lanes);
    Ok((have_installed, close(alloc, hub, lanes)?))
}

#[test]
fn a_host_runs_lanes_of_its_own(rt: HostRuntime) -> Result<(), Fail> {
    let (have_installed, rows) = play(&rt, rt.alloc())?;
    assert!(rt; have_installed);
    assert_eq!(rt; rows.len(), 2);
    assert_eq!(rt; count_of(rows.as_slice(), &pack(&install_of(0))), 1);
    assert_eq!(rt; count_of(rows.as_slice(), &pack(&install_of(1))), 1);
    Ok(())
}
