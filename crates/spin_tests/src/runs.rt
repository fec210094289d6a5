//! Whole runs whose lanes and workers are held up at gates.

use crate::gates::{Hold, lane, worker};
use crate::texts::{LANE_0_FIRST, LANE_1_FIRST, QUOTA_OF_ONE, TWO_RAISED, TWO_RAISES};
use spin_endpoint::Ends;
use spin_objects::Natives;
use spin_outside::{Gate, MemSink, MemSource};
use spin_run::{RunEnd, run_script};
use spin_script::read_script;
use spin_values::Octets;
use std::alloc::Global;
use std::process::Abort;
use std::test::Fail;
use std::thread::Threads;

// Room for each of the reports.
const ROOM: u32 = 1000;

// How often two lanes compete.
const ROUNDS: u32 = 20;

// Both holds at one gate.
#[derive(Drop)]
struct Both {
    one: Hold,
    other: Hold,
}

impl Gate for Both {
    fn pass(&self, lane: u8, deed: u32) {
        self.one.note(lane, deed);
        self.other.note(lane, deed);
        self.one.hold(lane, deed);
        self.other.hold(lane, deed);
    }
}

// What a run of the script writes.
fn report_of<R: Threads + Sync + Abort, G: Gate>(
    rt: &R,
    alloc: Global,
    text: &[u8],
    gate: &G,
) -> Result<MemSink, Fail> {
    let mut source = MemSource::new(Octets::new(alloc));
    let mut report = MemSink::new(alloc, ROOM)?;
    let mut ends = Ends::new(alloc);
    let script = read_script(alloc, text, Natives::new(alloc))?;
    let end = run_script(
        rt,
        alloc,
        script,
        None,
        &mut source,
        &mut report,
        &mut ends,
        gate,
    );
    assert_eq!(rt; end, RunEnd::Whole);
    Ok(report)
}

#[test]
fn each_lane_runs_beside_the_other(rt: HostRuntime) -> Result<(), Fail> {
    for held in 0..2 {
        let gate = Hold::new(lane(held, 0), lane(1 - held, 0));
        let report = report_of(&rt, rt.alloc(), TWO_RAISES, &gate)?;
        assert_eq!(rt; report.bytes(), TWO_RAISED);
        assert!(rt; gate.is_in_time());
    }
    Ok(())
}

const TWO_INSTALLS: &[u8] = b"\
spin 1
event 0 0 w:w last
handler 1 w:w result 1
handler 2 w:w result 2
lane 0 install 0 0 1 0 free plain
lane 1 raise 0 0
lane 1 install 0 0 2 0 free plain
lane 1 raise 0 0
lane 0 raise 0 0
";

const TWO_INSTALLED: &[u8] = b"\
report 1
segment 0 at 0
1 0 5 install ok
1 1 6 raise run 0 1 result 1 = value 1
2 1 7 install ok
2 0 9 raise run 0 1 result 1 run 0 2 result 2 = value 2
2 1 8 raise run 0 1 result 1 run 0 2 result 2 = value 2
end 2
";

#[test]
fn each_lane_sees_what_the_other_installs(rt: HostRuntime) -> Result<(), Fail> {
    let gate = Both {
        one: Hold::new(lane(1, 0), lane(0, 1)),
        other: Hold::new(lane(0, 1), lane(1, 2)),
    };
    let report = report_of(&rt, rt.alloc(), TWO_INSTALLS, &gate)?;
    assert_eq!(rt; report.bytes(), TWO_INSTALLED);
    assert!(rt; gate.one.is_in_time());
    assert!(rt; gate.other.is_in_time());
    Ok(())
}

// Lets both lanes go at once, as soon as both are there.
fn both_at_once() -> Both {
    Both {
        one: Hold::new(lane(0, 0), lane(1, 0)),
        other: Hold::new(lane(1, 0), lane(0, 0)),
    }
}

#[test]
fn one_of_two_lanes_has_the_quota(rt: HostRuntime) -> Result<(), Fail> {
    for _ in 0..ROUNDS {
        let gate = both_at_once();
        let report = report_of(&rt, rt.alloc(), QUOTA_OF_ONE, &gate)?;
        assert!(rt; report.bytes() == LANE_0_FIRST || report.bytes() == LANE_1_FIRST);
        assert!(rt; gate.one.is_in_time());
        assert!(rt; gate.other.is_in_time());
    }
    Ok(())
}

const TWO_JOBS: &[u8] = b"\
spin 1
event 0 0 - last
lane 0 later 0
lane 0 later 0
";

const TWO_JOBS_DONE: &[u8] = b"\
report 1
segment 0 at 0
0 0 3 later queued
0 0 4 later queued
job 0 0 3 0 = nohandler
job 0 0 4 0 = nohandler
end 0
";

#[test]
fn each_worker_works_beside_the_other(rt: HostRuntime) -> Result<(), Fail> {
    for held in 0..2 {
        let gate = Hold::new(worker(held), worker(1 - held));
        let report = report_of(&rt, rt.alloc(), TWO_JOBS, &gate)?;
        assert_eq!(rt; report.bytes(), TWO_JOBS_DONE);
        assert!(rt; gate.is_in_time());
    }
    Ok(())
}
