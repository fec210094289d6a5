//! A host whose own threads share a queue of tasks: each of two threads puts its tasks, and takes and does tasks of
//! both. A thread does what it takes, on the version that the task brings: all parties agree that a task can be done at
//! the host's setup. Its status is 0 where each task was done and gave what it should, 1 where not, and 7 where there
//! was no memory.
#![tactic(auto)]

ghost use Rattle.std.specs.Prelude.{◌≡◌, ◌-◌, ◌<◌, ◌^◌, length, All, IfOk};
ghost use Rattle.std.specs.Arc.{arc_value};
ghost use Rattle.spin.specs.Units.{IsSincereBy};
ghost use Rattle.spin.specs.SetupOf.{data_of};
ghost use Rattle.spin.specs.Soundness.{IsSoundVersion};
ghost use Rattle.spin.specs.Jobs.{CanDoAt, IsReplyFrom};
ghost use Rattle.spin.specs.Agreements.{CanDoTask, IsAgreedAt};
ghost use Rattle.spin.specs.Parties.{IsPartyOf, IsSameParty};

use spin::{
    Agreement, Answer, Args, Catalogue, JobCall, Natives, NoMemory, Parties, Party, Queue, Reply,
    Setup, Sincere, Task, Tasks, Value, Version, job_path, read_script,
};
use std::alloc::Global;
use std::io::Print;
use std::marker::Brand;
use std::process::ExitCode;
use std::sync::{Arc, Wait};
use std::thread::{Threads, join};

// One event, whose default gives one more than it is raised with.
const SCRIPT: &[u8] = b"spin 1
event 0 0 w:w last
handler 1 w:w result + a0 1
default 0 1
";

// How many tasks each thread puts.
const TASKS: u32 = 500;

// How many tasks the queue holds: fewer than a thread puts.
const CAPACITY: u32 = 16;

// What the tasks of both threads give in all: twice the sum of the numbers from 1 to 500.
const SUM: u64 = 250_500;

// The status where there is no memory.
const OUT_OF_MEMORY: u8 = 7;

// How many tasks were done, and what they gave in all.
#[derive(Clone, Copy)]
struct Tally {
    tasks: u32,
    sum: u64,
}

// The tally of no tasks.
const NONE: Tally = Tally { tasks: 0, sum: 0 };

impl Tally {
    // Adds a task that gave this.
    fn add(&mut self, given: u64) {
        self.tasks = self.tasks.wrapping_add(1);
        self.sum = self.sum.wrapping_add(given);
    }

    // Adds another tally.
    fn join(&mut self, other: Tally) {
        self.tasks = self.tasks.wrapping_add(other.tasks);
        self.sum = self.sum.wrapping_add(other.sum);
    }
}

// The call of the event with this number.
fn call_of(
    alloc: Global,
    setup: &Setup,
    version: &Version,
    number: u32,
) -> Result<JobCall, NoMemory>
    requires sound { IsSoundVersion (data_of setup.now) version.now }
    requires there { 0 < length (data_of setup.now).events }
    ensures { IfOk result (CanDoAt (data_of setup.now) version.now) }
{
    let mut args = Args::new(alloc);
    args.push(Value::Word(u64::from(number)))?;
    Ok(JobCall::Whole { event: 0, args })
}

// The reply to a task, done on its own version.
fn reply_to(alloc: Global, setup: &Setup, task: &Task) -> Result<Reply, NoMemory>
    requires sincere { ⟦<Catalogue as Sincere>⟧.sincere setup.now.catalogue }
    requires can { CanDoTask (data_of setup.now) task.now }
    ensures { IfOk result (IsReplyFrom (data_of setup.now) (arc_value task.now.version).state task.now.call) }
{
    job_path(alloc, &task.version, setup, &task.call)
}

// Does a task, and adds what it gave.
fn do_task(alloc: Global, setup: &Setup, task: &Task, tally: &mut Tally) -> Result<(), NoMemory>
    requires sincere { ⟦<Catalogue as Sincere>⟧.sincere setup.now.catalogue }
    requires can { CanDoTask (data_of setup.now) task.now }
{
    let reply = reply_to(alloc, setup, task)?;
    if let Reply::Ran {
        answer: Answer::Default(Some(given)),
        ..
    } = reply
    {
        tally.add(given);
    }
    Ok(())
}

// Puts the party's next task. False where the queue is full.
fn put<A: Agreement, R: Wait + Sync>(
    rt: &R,
    alloc: Global,
    queue: &Queue<A>,
    setup: &Setup,
    version: &Arc<Version>,
    party: &mut Party,
) -> Result<bool, NoMemory>
    requires sound { IsSoundVersion (data_of setup.now) (arc_value version.now) }
    requires there { 0 < length (data_of setup.now).events }
    requires agreed { IsAgreedAt (data_of setup.now) A.allows }
    requires queue { party.old.queue ≡ queue.now.id }
    requires room { length party.old.sent < 2 ^ 32 - 1 }
    ensures same { IsSameParty party.old party.new }
{
    let call = call_of(alloc, setup, version, party.sent())?;
    let own = Arc::try_clone(version)?;
    Ok(party.put(rt, queue, own, call).is_ok())
}

// Takes a task and does it. False where there is none.
fn do_next<A: Agreement, R: Wait + Sync>(
    rt: &R,
    alloc: Global,
    queue: &Queue<A>,
    setup: &Setup,
    party: &mut Party,
    tally: &mut Tally,
) -> Result<bool, NoMemory>
    requires sincere { ⟦<Catalogue as Sincere>⟧.sincere setup.now.catalogue }
    requires agreed { IsAgreedAt (data_of setup.now) A.allows }
    requires queue { party.old.queue ≡ queue.now.id }
    ensures same { IsSameParty party.old party.new }
{
    let Some(task) = party.take(rt, queue) else {
        return Ok(false);
    };
    do_task(alloc, setup, &task, tally)?;
    Ok(true)
}

// Puts the party's tasks, and takes and does tasks where the queue is full, and then until it finds none.
fn work<A: Agreement, R: Wait + Sync>(
    rt: &R,
    alloc: Global,
    queue: &Queue<A>,
    setup: &Setup,
    version: &Arc<Version>,
    mut party: Party,
) -> Result<(Party, Tally), NoMemory>
    requires sincere { ⟦<Catalogue as Sincere>⟧.sincere setup.now.catalogue }
    requires sound { IsSoundVersion (data_of setup.now) (arc_value version.now) }
    requires there { 0 < length (data_of setup.now).events }
    requires agreed { IsAgreedAt (data_of setup.now) A.allows }
    requires queue { party.queue ≡ queue.now.id }
    ensures { IfOk result (λ done. IsSameParty party done.0) }
{
    let mut tally = NONE;
    for _ in rt.forever() {
        let has_more = party.sent() < TASKS;
        let is_put = has_more && put(rt, alloc, queue, setup, version, &mut party)?;
        if !is_put && !do_next(rt, alloc, queue, setup, &mut party, &mut tally)? && !has_more {
            return Ok((party, tally));
        }
    }
    unreachable!()
}

// Both threads at once, each with its own party.
fn take_turns<A: Agreement + Sync, R: Threads + Wait + Sync>(
    rt: &R,
    alloc: Global,
    queue: &Queue<A>,
    setup: &Setup,
    version: &Arc<Version>,
    a: Party,
    b: Party,
) -> (
    Result<(Party, Tally), NoMemory>,
    Result<(Party, Tally), NoMemory>,
)
    requires sincere { ⟦<Catalogue as Sincere>⟧.sincere setup.now.catalogue }
    requires sound { IsSoundVersion (data_of setup.now) (arc_value version.now) }
    requires there { 0 < length (data_of setup.now).events }
    requires agreed { IsAgreedAt (data_of setup.now) A.allows }
    requires queue { (a.queue ≡ queue.now.id) × (b.queue ≡ queue.now.id) }
    ensures a { IfOk result.0 (λ done. IsSameParty a done.0) }
    ensures b { IfOk result.1 (λ done. IsSameParty b done.0) }
{
    join(
        rt,
        || -> Result<(Party, Tally), NoMemory>
            requires sincere { IsSincereBy does asks follows setup.now.catalogue.natives }
            requires sound { IsSoundVersion (data_of setup.now) (arc_value version.now) }
            requires there { 0 < length (data_of setup.now).events }
            requires agreed { IsAgreedAt (data_of setup.now) A.allows }
            requires queue { a.queue ≡ queue.now.id }
            ensures { IfOk result (λ done. IsSameParty a done.0) }
        { work(rt, alloc, queue, setup, version, a) },
        || -> Result<(Party, Tally), NoMemory>
            requires sincere { IsSincereBy does asks follows setup.now.catalogue.natives }
            requires sound { IsSoundVersion (data_of setup.now) (arc_value version.now) }
            requires there { 0 < length (data_of setup.now).events }
            requires agreed { IsAgreedAt (data_of setup.now) A.allows }
            requires queue { b.queue ≡ queue.now.id }
            ensures { IfOk result (λ done. IsSameParty b done.0) }
        { work(rt, alloc, queue, setup, version, b) },
    )
}

// A queue with a party for each thread.
fn open<A: Agreement>(alloc: Global) -> Result<(Queue<A>, Party, Party), NoMemory>
    ensures two { IfOk result (λ made. made.0.parties ≡ 2) }
    ensures a { IfOk result (λ made. IsPartyOf made.0 made.1 × (made.1.number ≡ 0)) }
    ensures b { IfOk result (λ made. IsPartyOf made.0 made.2 × (made.2.number ≡ 1)) }
{
    let (queue, mut parties) = Queue::<A>::new(alloc, 2, CAPACITY)?;
    let Some(a) = parties.take_first() else {
        unreachable!()
    };
    let Some(b) = parties.take_first() else {
        unreachable!()
    };
    Ok((queue, a, b))
}

// The tasks that are left when both threads have ended.
fn close<A: Agreement, R: Wait + Sync>(
    rt: &R,
    alloc: Global,
    queue: Queue<A>,
    a: Party,
    b: Party,
) -> Result<Tasks, NoMemory>
    requires two { queue.parties ≡ 2 }
    requires a { IsPartyOf queue a × (a.number ≡ 0) }
    requires b { IsPartyOf queue b × (b.number ≡ 1) }
    ensures { IfOk result (All A.allows) }
{
    let mut parties = Parties::new(alloc);
    parties.push(a)?;
    parties.push(b)?;
    queue.close(rt, alloc, parties)
}

// Does the tasks that are left.
fn do_left(alloc: Global, setup: &Setup, left: &Tasks, tally: &mut Tally) -> Result<(), NoMemory>
    requires sincere { ⟦<Catalogue as Sincere>⟧.sincere setup.now.catalogue }
    requires can { All (CanDoTask (data_of setup.now)) left.now }
{
    for task in left.as_slice() {
        do_task(alloc, setup, task, tally)?;
    }
    Ok(())
}

// What the tasks give: those that the threads do, and those that are left.
fn play<A: Agreement + Sync, R: Threads + Wait + Sync>(
    rt: &R,
    alloc: Global,
    setup: &Setup,
    version: &Arc<Version>,
) -> Result<Tally, NoMemory>
    requires sincere { ⟦<Catalogue as Sincere>⟧.sincere setup.now.catalogue }
    requires sound { IsSoundVersion (data_of setup.now) (arc_value version.now) }
    requires there { 0 < length (data_of setup.now).events }
    requires agreed { IsAgreedAt (data_of setup.now) A.allows }
{
    let (queue, a, b) = open::<A>(alloc)?;
    let (a_done, b_done) = take_turns(rt, alloc, &queue, setup, version, a, b);
    let (a, mut tally) = a_done?;
    let (b, other) = b_done?;
    tally.join(other);
    let left = close(rt, alloc, queue, a, b)?;
    do_left(alloc, setup, &left, &mut tally)?;
    Ok(tally)
}

// What the tasks give at the setup's first version, if it has an event.
fn played<R: Threads + Wait + Sync>(rt: &R, alloc: Global, setup: &Setup) -> Result<Tally, NoMemory>
    requires sincere { ⟦<Catalogue as Sincere>⟧.sincere setup.now.catalogue }
{
    if setup.events() == 0 {
        return Ok(NONE);
    }
    let version = Arc::new(alloc, Version::start(alloc, setup)?)?;
    play::<Brand, R>(rt, alloc, setup, &version)
}

fn main(rt: HostRuntime) -> Result<ExitCode, NoMemory> {
    let alloc = rt.alloc();
    let Ok(script) = read_script(alloc, SCRIPT, Natives::new(alloc)) else {
        return Ok(ExitCode::from(OUT_OF_MEMORY));
    };
    let Ok(tally) = played(&rt, alloc, &script.setup) else {
        return Ok(ExitCode::from(OUT_OF_MEMORY));
    };
    let _ = println!(rt;
        "two threads did {} tasks, which gave {} in all",
        tally.tasks, tally.sum
    );
    let is_whole = tally.tasks == 2 * TASKS && tally.sum == SUM;
    Ok(ExitCode::from(if is_whole { 0 } else { 1 }))
}
