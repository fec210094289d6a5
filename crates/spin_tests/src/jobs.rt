//! Jobs that several workers do at once.

ghost use Rattle.std.specs.Prelude.{◌≡◌, ◌<◌, [], length, IfOk};
ghost use Rattle.std.specs.Arc.{arc_value};
ghost use Rattle.std.specs.List.{All};
ghost use Rattle.spin_table.specs.SetupOf.{data_of};
ghost use Rattle.spin_table.specs.Soundness.{IsSoundVersion};
ghost use Rattle.spin_jobs.specs.Jobs.{CanRun};

use crate::gates::{Hold, worker};
use spin_code::{Act, Sincere, Steplist};
use spin_jobs::{Job, Jobs, MAX_WORKERS, Replies, run_all};
use spin_objects::{Catalogue, Handler, Natives, Outcome};
use spin_outside::Gate;
use spin_proto::{JobCall, Reply, Step, Trace};
use spin_script::read_script;
use spin_table::{Setup, Version};
use spin_values::{Args, EventType, Kind, NoMemory, Param, Params, Text, Value};
use std::alloc::Global;
use std::process::Abort;
use std::sync::Arc;
use std::sync::atomic::{AtomicU64, Ordering};
use std::test::Fail;
use std::thread::Threads;

// One event, whose default gives the word that it is raised with.
const ECHO: &[u8] = b"spin 1\nevent 0 0 w:w last\nhandler 1 w:w result a0\ndefault 0 1\n";

// Holds job 0 until job 1 has passed. Counts the passes, and those of numbers that are no worker's.
#[derive(Drop)]
struct Counting {
    hold: Hold,
    passes: AtomicU64,
    strangers: AtomicU64,
}

impl Counting {
    fn new() -> Counting {
        Counting {
            hold: Hold::new(worker(0), worker(1)),
            passes: AtomicU64::new(0),
            strangers: AtomicU64::new(0),
        }
    }
}

impl Gate for Counting {
    fn pass(&self, lane: u8, deed: u32) {
        self.passes.fetch_add(1, Ordering::SeqCst);
        if lane < 8 || lane > 15 {
            self.strangers.fetch_add(1, Ordering::SeqCst);
        }
        self.hold.pass(lane, deed);
    }
}

// The job of raising event 0 with this word on this version.
fn job_of(
    alloc: Global,
    setup: &Setup,
    version: &Arc<Version>,
    number: u32,
) -> Result<Job, NoMemory>
    requires sound { IsSoundVersion (data_of setup.now) (arc_value version.now) }
    requires there { 0 < length (arc_value version.now).state.events }
    ensures { IfOk result (CanRun (data_of setup.now)) }
{
    let mut args = Args::new(alloc);
    args.push(Value::Word(u64::from(number)))?;
    Ok(Job {
        version: Arc::try_clone(version)?,
        call: JobCall::Whole { event: 0, args },
        place: 0,
        lane: 0,
        line: 1,
        part: 0,
        index: number,
    })
}

// So many such jobs with the words from 0 on, all on the version at the start.
fn jobs_of(alloc: Global, setup: &Setup, count: u32) -> Result<Jobs, NoMemory>
    requires { 0 < length (data_of setup.now).events }
    ensures { IfOk result (All (CanRun (data_of setup.now))) }
{
    let version = Arc::new(alloc, Version::start(alloc, setup)?)?;
    let mut jobs = Jobs::new(alloc);
    for number in 0..count {
        jobs.push(job_of(alloc, setup, &version, number)?)?;
    }
    Ok(jobs)
}

// The replies to so many jobs of an event of this setup.
fn replies_in<R: Threads + Sync + Abort, G: Gate>(
    rt: &R,
    alloc: Global,
    setup: &Setup,
    count: u32,
    workers: u8,
    gate: &G,
) -> Result<Replies, NoMemory>
    requires { ⟦<Catalogue as Sincere>⟧.sincere setup.now.catalogue }
{
    assert!(rt; setup.events() > 0);
    assert!(rt; workers > 0);
    assert!(rt; workers <= MAX_WORKERS);
    let jobs = jobs_of(alloc, setup, count)?;
    assert_eq!(rt; jobs.len(), count as usize);
    run_all(rt, alloc, setup, &jobs, workers, gate)
}

// The replies to so many jobs of the script's event.
fn replies_of<R: Threads + Sync + Abort, G: Gate>(
    rt: &R,
    alloc: Global,
    script: &[u8],
    natives: Natives,
    count: u32,
    workers: u8,
    gate: &G,
) -> Result<Replies, Fail>
    requires { ⟦<Natives as Sincere>⟧.sincere natives }
{
    let script = read_script(alloc, script, natives)?;
    Ok(replies_in(rt, alloc, &script.setup, count, workers, gate)?)
}

// Whether these are the steps of one handler that gives this word.
fn gives(trace: &Trace, word: u64) -> bool {
    trace.len() == 2 && *trace.get(1) == Step::Result(word)
}

// Whether the jobs gave the words from 0 on.
fn are_in_order(replies: &[Reply]) -> bool {
    let mut next = 0;
    for reply in replies {
        let Reply::Ran { trace, .. } = reply else {
            return false;
        };
        if !gives(trace, next) {
            return false;
        }
        next = next.wrapping_add(1);
    }
    true
}

// How many jobs there are, and how many workers.
const CASES: [(u32, u8); 3] = [
    // No job has no reply.
    (0, 8),
    // Two jobs are done at once.
    (2, 2),
    // Many are answered in their order.
    (1000, 8),
];

#[test]
fn jobs_are_done_at_once_and_answered_in_order(rt: HostRuntime) -> Result<(), Fail> {
    for (count, workers) in CASES {
        let gate = Counting::new();
        let natives = Natives::new(rt.alloc());
        let replies = replies_of(&rt, rt.alloc(), ECHO, natives, count, workers, &gate)?;
        assert_eq!(rt; replies.len(), count as usize);
        assert!(rt; are_in_order(replies.as_slice()));
        assert_eq!(rt; gate.passes.load(Ordering::SeqCst), u64::from(count));
        assert_eq!(rt; gate.strangers.load(Ordering::SeqCst), 0);
        assert!(rt; gate.hold.is_in_time());
    }
    Ok(())
}

// One event, whose default is the native.
const TALLY: &[u8] = b"spin 1\nevent 0 0 w last\nhandler 1 native own\ndefault 0 1\n";

// What a run of job 1 counts; one of job 0 counts 1.
const SECOND: u64 = 65_536;

// Counts the runs of jobs 0 and 1.
struct Tally {
    runs: Arc<AtomicU64>,
}

impl Drop for Tally {
    fn drop(self) {
        let Tally { runs } = self;
        drop(runs);
    }
}

impl Handler for Tally {
    ghost does = { λ _. record { steps = [] } };

    fn run(&self, _alloc: Global, args: &mut Args, _out: &mut Outcome) -> Result<(), NoMemory> {
        let worth = match args.as_slice().first() {
            Some(Value::Word(0)) => 1,
            _ => SECOND,
        };
        self.runs.fetch_add(worth, Ordering::SeqCst);
        Ok(())
    }
}

// The native that counts, under its name.
fn tally_natives(alloc: Global, object: Box<dyn Handler + Send + Sync>) -> Result<Natives, Fail>
    requires { does object ≡ record { steps = [] } }
    ensures { IfOk result (λ natives. ⟦<Natives as Sincere>⟧.sincere natives) }
{
    let mut natives = Natives::new(alloc);
    let mut params = Params::new(alloc);
    params.push(Param {
        kind: Kind::Word,
        var: false,
    })?;
    let sig = EventType {
        params,
        gives: false,
    };
    let steps = Steplist::new(alloc);
    natives.add_handler(Text::from_bytes(alloc, b"own")?, sig, Act { steps }, object)?;
    Ok(natives)
}

// Holds job 0 until job 1 has passed, and notes who passed, and each pass of a job that was done already.
#[derive(Drop)]
struct Watching {
    hold: Hold,
    runs: Arc<AtomicU64>,
    passed: AtomicU64,
    late: AtomicU64,
}

impl Gate for Watching {
    fn pass(&self, lane: u8, deed: u32) {
        let runs = self.runs.load(Ordering::SeqCst);
        let own = if deed == 0 {
            runs % SECOND
        } else {
            runs / SECOND
        };
        self.late.fetch_add(own, Ordering::SeqCst);
        self.passed.fetch_add(u64::from(lane), Ordering::SeqCst);
        self.hold.pass(lane, deed);
    }
}

#[test]
fn two_workers_pass_and_each_does_its_job_once(rt: HostRuntime) -> Result<(), Fail> {
    let alloc: Global = rt.alloc();
    let runs = Arc::new(alloc, AtomicU64::new(0))?;
    let object: Box<dyn Handler + Send + Sync> = Box::new(
        alloc,
        Tally {
            runs: Arc::try_clone(&runs)?,
        },
    )?;
    let gate = Watching {
        hold: Hold::new(worker(0), worker(1)),
        runs: Arc::try_clone(&runs)?,
        passed: AtomicU64::new(0),
        late: AtomicU64::new(0),
    };
    let natives = tally_natives(alloc, object)?;
    let replies = replies_of(&rt, alloc, TALLY, natives, 2, 2, &gate)?;
    assert_eq!(rt; replies.len(), 2);
    assert!(rt; gate.hold.is_in_time());
    assert_eq!(rt; gate.late.load(Ordering::SeqCst), 0);
    assert_eq!(rt; gate.passed.load(Ordering::SeqCst), 8 + 9);
    assert_eq!(rt; runs.load(Ordering::SeqCst), 1 + SECOND);
    Ok(())
}
