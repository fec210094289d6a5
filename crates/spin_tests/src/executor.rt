//! Tasks that two parties put into a queue and take out of it, and batches of calls that go through one.

ghost use Rattle.std.specs.Prelude.{◌≡◌, ◌<◌, ◌≤◌, ◌^◌, length, IfOk};
ghost use Rattle.std.specs.Arc.{arc_value};
ghost use Rattle.std.specs.List.{All};
ghost use Rattle.spin_table.specs.SetupOf.{data_of};
ghost use Rattle.spin_table.specs.Soundness.{IsSoundVersion};
ghost use Rattle.spin_later.specs.declared.queue.TheConstants.{MAX_CAPACITY};
ghost use Rattle.spin_later.specs.Batches.{CanDo};
ghost use Rattle.spin_later.specs.Parties.{IsPartyOf, IsSameParty};

use spin_code::Sincere;
use spin_later::{
    AnyTask, Batch, BatchReplies, Batches, Call, Parties, Party, Queue, Tasks, run_background,
};
use spin_objects::{Catalogue, Natives};
use spin_proto::{JobCall, Reply};
use spin_raise::Answer;
use spin_script::read_script;
use spin_table::{Setup, Version};
use spin_values::{Args, NoMemory, Value};
use spin_word::{Command, Op, is_valid};
use std::alloc::Global;
use std::process::Abort;
use std::sync::{Arc, Wait};
use std::test::Fail;
use std::thread::Threads;

// A script of one event and no handler.
const EMPTY: &[u8] = b"spin 1\nevent 0 0 - last\n";

// Which party moves; whether it puts a task, or takes one; and the sender and number of the task that this comes to,
// where the queue has room for it, or has it.
type Move = (u8, bool, Option<(u8, u32)>);

// A queue of one task: it is full, is taken from by the other party, and is empty.
const ONE: [Move; 4] = [
    (0, true, Some((0, 0))),
    (0, true, None),
    (1, false, Some((0, 0))),
    (1, false, None),
];

// A queue of three tasks of both parties, of which two are left.
const THREE: [Move; 6] = [
    (0, true, Some((0, 0))),
    (1, true, Some((1, 0))),
    (0, true, Some((0, 1))),
    (1, false, Some((0, 0))),
    (1, true, Some((1, 1))),
    (0, false, Some((1, 0))),
];

// Each party in turn puts a task, which the other one takes, so that the queue is empty again.
const IN_TURN: [Move; 4] = [
    (0, true, Some((0, 0))),
    (1, false, Some((0, 0))),
    (1, true, Some((1, 0))),
    (0, false, Some((1, 0))),
];

// How many tasks the queue holds, the moves, how often they are made, and what is left then.
type Case = (u32, &'static [Move], u32, &'static [(u8, u32)]);

const CASES: [Case; 3] = [
    (1, &ONE, 1, &[]),
    (3, &THREE, 1, &[(0, 1), (1, 1)]),
    (1, &IN_TURN, 1001, &[]),
];

// The version at the start of a setup.
fn start_of(alloc: Global, setup: &Setup) -> Result<Arc<Version>, NoMemory> {
    Ok(Arc::new(alloc, Version::start(alloc, setup)?)?)
}

// The version at the start of the script's setup.
fn version_of(alloc: Global) -> Result<Arc<Version>, Fail> {
    let script = read_script(alloc, EMPTY, Natives::new(alloc))?;
    Ok(start_of(alloc, &script.setup)?)
}

// Puts a task, and gives its sender and number.
fn put<R: Wait + Abort + Sync>(
    rt: &R,
    queue: &Queue<AnyTask>,
    party: &mut Party,
    version: Arc<Version>,
    args: Args,
) -> Option<(u8, u32)>
    requires { IsPartyOf queue.now party.old }
    ensures { IsSameParty party.old party.new }
{
    assert!(rt; party.sent() < u32::MAX);
    let sender = party.number();
    let call = JobCall::Whole { event: 0, args };
    let number = party.put(rt, queue, version, call).ok()?;
    Some((sender, number))
}

// Takes a task, and gives its sender and number.
fn take<R: Wait + Sync>(rt: &R, queue: &Queue<AnyTask>, party: &mut Party) -> Option<(u8, u32)>
    requires { IsPartyOf queue.now party.old }
    ensures { IsSameParty party.old party.new }
{
    let task = party.take(rt, queue)?;
    Some((task.sender, task.number))
}

// Makes the move, and gives what it comes to.
fn make<R: Wait + Abort + Sync>(
    rt: &R,
    alloc: Global,
    queue: &Queue<AnyTask>,
    party: &mut Party,
    version: &Arc<Version>,
    puts: bool,
) -> Result<Option<(u8, u32)>, NoMemory>
    requires { IsPartyOf queue.now party.old }
    ensures { IsSameParty party.old party.new }
{
    if puts {
        let version = Arc::try_clone(version)?;
        Ok(put(rt, queue, party, version, Args::new(alloc)))
    } else {
        Ok(take(rt, queue, party))
    }
}

// What is left when both parties have ended.
fn close<R: Wait + Sync>(
    rt: &R,
    alloc: Global,
    queue: Queue<AnyTask>,
    first: Party,
    second: Party,
) -> Result<Tasks, NoMemory>
    requires two { queue.parties ≡ 2 }
    requires first { IsPartyOf queue first × (first.number ≡ 0) }
    requires second { IsPartyOf queue second × (second.number ≡ 1) }
{
    let mut parties = Parties::new(alloc);
    parties.push(first)?;
    parties.push(second)?;
    queue.close(rt, alloc, parties)
}

// What the move should come to in this round.
fn wanted_in(round: u32, wanted: Option<(u8, u32)>) -> Option<(u8, u32)> {
    let (sender, number) = wanted?;
    Some((sender, number.wrapping_add(round)))
}

// Makes the moves, each of which comes to what it should in this round.
fn make_all<R: Wait + Abort + Sync>(
    rt: &R,
    alloc: Global,
    queue: &Queue<AnyTask>,
    first: &mut Party,
    second: &mut Party,
    version: &Arc<Version>,
    moves: &[Move],
    round: u32,
) -> Result<(), Fail>
    requires first { IsPartyOf queue.now first.old }
    requires second { IsPartyOf queue.now second.old }
    ensures first { IsSameParty first.old first.new }
    ensures second { IsSameParty second.old second.new }
{
    for &(party, puts, wanted) in moves {
        let comes = if party == 0 {
            make(rt, alloc, queue, first, version, puts)?
        } else {
            make(rt, alloc, queue, second, version, puts)?
        };
        assert_eq!(rt; comes, wanted_in(round, wanted));
    }
    Ok(())
}

// Makes the moves so often.
fn make_rounds<R: Wait + Abort + Sync>(
    rt: &R,
    alloc: Global,
    queue: &Queue<AnyTask>,
    first: &mut Party,
    second: &mut Party,
    moves: &[Move],
    rounds: u32,
) -> Result<(), Fail>
    requires first { IsPartyOf queue.now first.old }
    requires second { IsPartyOf queue.now second.old }
    ensures first { IsSameParty first.old first.new }
    ensures second { IsSameParty second.old second.new }
{
    let version = version_of(alloc)?;
    for round in 0..rounds {
        make_all(rt, alloc, queue, first, second, &version, moves, round)?;
    }
    Ok(())
}

// The tasks that are left when the moves were made so often in a queue of this capacity.
fn left_after<R: Wait + Abort + Sync>(
    rt: &R,
    alloc: Global,
    capacity: u32,
    moves: &[Move],
    rounds: u32,
) -> Result<Tasks, Fail>
    requires { (1 ≤ capacity) × (capacity ≤ MAX_CAPACITY) }
{
    let (queue, mut parties) = Queue::<AnyTask>::new(alloc, 2, capacity)?;
    let Some(mut first) = parties.take_first() else {
        unreachable!()
    };
    let Some(mut second) = parties.take_first() else {
        unreachable!()
    };
    make_rounds(rt, alloc, &queue, &mut first, &mut second, moves, rounds)?;
    Ok(close(rt, alloc, queue, first, second)?)
}

// The senders and numbers of tasks.
fn names_of(alloc: Global, tasks: &Tasks) -> Result<Vec<(u8, u32)>, NoMemory> {
    let mut names = Vec::new(alloc);
    for task in tasks {
        names.push((task.sender, task.number))?;
    }
    Ok(names)
}

#[test]
fn tasks_come_once_and_in_order(rt: HostRuntime) -> Result<(), Fail> {
    let alloc: Global = rt.alloc();
    for (capacity, moves, rounds, left) in CASES {
        let tasks = left_after(&rt, alloc, capacity, moves, rounds)?;
        assert_eq!(rt; names_of(alloc, &tasks)?.as_slice(), left);
    }
    Ok(())
}

// A script of one event and one handler, which gives 1.
const ONE_HANDLER: &[u8] = b"spin 1\nevent 0 0 w:w last\nhandler 1 w:w result 1\n";

// How many batches there are, how many calls each has, and how many tasks the queue holds.
const TEAMS: [(u8, u32, u32); 4] = [
    // One party, which finds its own tasks.
    (1, 10, 1),
    // Parties with nothing to do.
    (8, 0, 1),
    // Two parties with more calls than the queue holds.
    (2, 100, 4),
    // As many as there may be.
    (8, 20, 65_536),
];

// The version on which the handler is bound.
fn bound<R: Abort>(rt: &R, alloc: Global, setup: &Setup) -> Result<Arc<Version>, Fail>
    requires { ⟦<Catalogue as Sincere>⟧.sincere setup.now.catalogue }
    ensures { IfOk result (λ version. IsSoundVersion (data_of setup.now) (arc_value version)) }
{
    let start = Version::start(alloc, setup)?;
    let command = Command {
        handler: 1,
        ..Command::bare(Op::Install, 0, 0, 0)
    };
    assert!(rt; is_valid(&command));
    assert!(rt; start.place() < 4096);
    let version = start.next(alloc, setup, &command)?;
    Ok(Arc::new(alloc, version)?)
}

// The call of event 0 with 9 on this version.
fn call_of(alloc: Global, setup: &Setup, version: &Arc<Version>) -> Result<Call, NoMemory>
    requires sound { IsSoundVersion (data_of setup.now) (arc_value version.now) }
    requires there { 0 < length (data_of setup.now).events }
    ensures { IfOk result (CanDo (data_of setup.now)) }
{
    let mut args = Args::new(alloc);
    args.push(Value::Word(9))?;
    Ok(Call {
        version: Arc::try_clone(version)?,
        call: JobCall::Whole { event: 0, args },
    })
}

// So many such calls.
fn batch_of(
    alloc: Global,
    setup: &Setup,
    version: &Arc<Version>,
    calls: u32,
) -> Result<Batch, NoMemory>
    requires sound { IsSoundVersion (data_of setup.now) (arc_value version.now) }
    requires there { 0 < length (data_of setup.now).events }
    ensures can { IfOk result (All (CanDo (data_of setup.now))) }
    ensures few { IfOk result (λ batch. length batch < 2 ^ 32) }
{
    let mut batch = Batch::new(alloc);
    for _ in 0..calls {
        batch.push(call_of(alloc, setup, version)?)?;
    }
    Ok(batch)
}

// So many batches of so many such calls.
fn batches_of(
    alloc: Global,
    setup: &Setup,
    version: &Arc<Version>,
    count: u8,
    calls: u32,
) -> Result<Batches, NoMemory>
    requires sound { IsSoundVersion (data_of setup.now) (arc_value version.now) }
    requires there { 0 < length (data_of setup.now).events }
    ensures can { IfOk result (All (All (CanDo (data_of setup.now)))) }
    ensures few { IfOk result (All (λ batch. length batch < 2 ^ 32)) }
    ensures len { IfOk result (λ batches. length batches ≡ count) }
{
    let mut batches = Batches::new(alloc);
    for _ in 0..count {
        batches.push(batch_of(alloc, setup, version, calls)?)?;
    }
    Ok(batches)
}

// The replies to so many batches of so many such calls, of an event of this setup.
fn replies_in<R: Threads + Wait + Sync + Abort>(
    rt: &R,
    alloc: Global,
    setup: &Setup,
    count: u8,
    calls: u32,
    capacity: u32,
) -> Result<BatchReplies, Fail>
    requires sincere { ⟦<Catalogue as Sincere>⟧.sincere setup.now.catalogue }
    requires parties { (1 ≤ count) × (count ≤ 8) }
    requires room { (1 ≤ capacity) × (capacity ≤ MAX_CAPACITY) }
{
    assert!(rt; setup.events() > 0);
    let version = bound(rt, alloc, setup)?;
    let batches = batches_of(alloc, setup, &version, count, calls)?;
    Ok(run_background(rt, rt, alloc, setup, &batches, capacity)?)
}

// The replies to so many batches of so many such calls.
fn replies_to<R: Threads + Wait + Sync + Abort>(
    rt: &R,
    alloc: Global,
    count: u8,
    calls: u32,
    capacity: u32,
) -> Result<BatchReplies, Fail>
    requires parties { (1 ≤ count) × (count ≤ 8) }
    requires room { (1 ≤ capacity) × (capacity ≤ MAX_CAPACITY) }
{
    let script = read_script(alloc, ONE_HANDLER, Natives::new(alloc))?;
    replies_in(rt, alloc, &script.setup, count, calls, capacity)
}

// Whether the reply is that the handler gave 1.
fn is_one(reply: &Reply) -> bool {
    matches!(
        reply,
        Reply::Ran {
            answer: Answer::Value(1),
            ..
        }
    )
}

#[test]
fn batches_are_done_call_by_call(rt: HostRuntime) -> Result<(), Fail> {
    for (count, calls, capacity) in TEAMS {
        let replies = replies_to(&rt, rt.alloc(), count, calls, capacity)?;
        assert_eq!(rt; replies.len(), usize::from(count));
        for own in replies.iter() {
            assert_eq!(rt; own.len(), calls as usize);
            assert!(rt; own.iter().all(is_one));
        }
    }
    Ok(())
}
