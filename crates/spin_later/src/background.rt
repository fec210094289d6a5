//! Batches of calls that parties put into a queue, and do as they take them out of it.

ghost use Rattle.std.specs.Prelude.{◌≡◌, ◌<◌, ◌≤◌, ◌^◌, length, All, IfOk};
ghost use Rattle.std.specs.List.{AllZip};
ghost use Rattle.spin_objects.specs.Units.{IsSincereBy};
ghost use Rattle.spin_table.specs.SetupOf.{data_of};
ghost use Rattle.spin_later.specs.declared.queue.TheConstants.{MAX_PARTIES, MAX_CAPACITY};
ghost use Rattle.spin_later.specs.Batches.{CanDo, IsReplyTo};
ghost use Rattle.spin_later.specs.Inner.Work.{IsRight, IsIdle, IsFresh, HasEnded};
ghost use Rattle.spin_later.specs.Inner.Work.{parties_of, numbers_of, done_by};

use crate::agreement::AnyTask;
use crate::batch::{BatchReplies, Batches};
use crate::doing::{Done, do_task};
use crate::party::Parties;
use crate::places::in_order;
use crate::queue::{MAX_PARTIES, Queue};
use crate::task::Tasks;
use crate::worker::Worker;
use spin_code::Sincere;
use spin_objects::Catalogue;
use spin_table::Setup;
use spin_values::NoMemory;
use std::alloc::Global;
use std::sync::Wait;
use std::thread;
use std::thread::Threads;

/// Does the calls of all batches by as many parties side by side, which hand each other the calls through one queue of
/// this capacity. The k-th reply of a batch is what its k-th call comes to on its own version, by
/// [`job_path`](spin_proto::job_path), whatever the schedule; it leaves no further job.
///
/// Each party puts the calls of its batch; where the queue is full it takes a task and does it; then it takes until it
/// finds the queue empty. The caller does what is left. What a task is to do is looked up in the batches under its
/// sender and number. There are 1 to [`MAX_PARTIES`] batches, each of at most 4,294,967,295 calls that belong to their
/// versions, and the capacity is from 1 to [`MAX_CAPACITY`](crate::MAX_CAPACITY). A party that has no memory ends, and
/// the answer is `NoMemory`. Besides what the calls take, it is linear in their number.
///
/// That it returns isn't promised, and no clause says that the calls go through the queue.
pub fn run_background<R: Threads + Sync, W: Wait + Sync>(
    rt: &R,
    wait: &W,
    alloc: Global,
    setup: &Setup,
    batches: &Batches,
    capacity: u32,
) -> Result<BatchReplies, NoMemory>
    requires some { 1 ≤ length batches.now }
    requires most { length batches.now ≤ MAX_PARTIES }
    requires few { All (λ batch. length batch < 2 ^ 32) batches.now }
    requires room { 1 ≤ capacity }
    requires limit { capacity ≤ MAX_CAPACITY }
    requires sincere { ⟦<Catalogue as Sincere>⟧.sincere setup.now.catalogue }
    requires can { All (All (CanDo (data_of setup.now))) batches.now }
    ensures { IfOk result (AllZip (AllZip (IsReplyTo (data_of setup.now))) batches.now) }
{
    let (queue, parties) = Queue::<AnyTask>::new(alloc, batches.len() as u8, capacity)?;
    let mut team = team_of(alloc, parties)?;
    run_team(rt, wait, alloc, &queue, setup, batches, &mut team);
    let (parties, mut done) = gather(alloc, team)?;
    let left = queue.close(wait, alloc, parties)?;
    do_left(alloc, setup, batches, &left, &mut done)?;
    in_order(alloc, setup, batches, done)
}

// A worker for each party, in order.
fn team_of(alloc: Global, parties: Parties) -> Result<Vec<Worker>, NoMemory>
    ensures parties { IfOk result (λ team. parties_of team.items ≡ parties) }
    ensures idle { IfOk result (λ team. All IsIdle team.items) }
{
    let mut team = Vec::with_capacity(alloc, parties.len())?;
    for party in parties.into_vec() {
        team.push(Worker {
            party,
            done: Vec::new(alloc),
            outcome: Ok(()),
        })?;
    }
    Ok(team)
}

// Runs the workers side by side.
fn run_team<R: Threads + Sync, W: Wait + Sync>(
    rt: &R,
    wait: &W,
    alloc: Global,
    queue: &Queue<AnyTask>,
    setup: &Setup,
    batches: &Batches,
    team: &mut Vec<Worker>,
)
    requires sincere { ⟦<Catalogue as Sincere>⟧.sincere setup.now.catalogue }
    requires can { All (All (CanDo (data_of setup.now))) batches.now }
    requires few { All (λ batch. length batch < 2 ^ 32) batches.now }
    requires fresh { All (IsFresh queue.now (length batches.now)) team.old.items }
    ensures ended { All (HasEnded queue.now (data_of setup.now) batches.now) team.new.items }
    ensures numbers { numbers_of team.new.items ≡ numbers_of team.old.items }
{
    thread::for_each_mut(
        rt,
        team.as_mut_slice(),
        usize::from(MAX_PARTIES),
        &|_, worker: &mut Worker|
            requires sincere { IsSincereBy does asks follows setup.now.catalogue.natives }
            requires can { All (All (CanDo (data_of setup.now))) batches.now }
            requires few { All (λ batch. length batch < 2 ^ 32) batches.now }
            requires fresh { IsFresh queue.now (length batches.now) worker.old }
            ensures ended { HasEnded queue.entry.now (data_of setup.entry.now) batches.entry.now worker.new }
            ensures number { worker.new.party.number ≡ worker.old.party.number }
        { worker.run(wait, alloc, queue, setup, batches) },
    );
}

// The parties of the workers, where each had memory, and all that they did, in order.
fn gather(alloc: Global, team: Vec<Worker>) -> Result<(Parties, Vec<Done>), NoMemory>
    ensures parties { IfOk result (λ gathered. gathered.0 ≡ parties_of team.items) }
    ensures done { IfOk result (λ gathered. gathered.1.items ≡ done_by team.items) }
{
    let mut parties = Parties::new(alloc);
    let mut all = Vec::new(alloc);
    for worker in team {
        let Worker {
            party,
            mut done,
            outcome,
        } = worker;
        outcome?;
        parties.push(party)?;
        all.append(&mut done)?;
    }
    Ok((parties, all))
}

// Does the tasks that are left.
fn do_left(
    alloc: Global,
    setup: &Setup,
    batches: &Batches,
    left: &Tasks,
    done: &mut Vec<Done>,
) -> Result<(), NoMemory>
    requires sincere { ⟦<Catalogue as Sincere>⟧.sincere setup.now.catalogue }
    requires can { All (All (CanDo (data_of setup.now))) batches.now }
    requires right { All (IsRight (data_of setup.now) batches.now) done.old.items }
    ensures { All (IsRight (data_of setup.now) batches.now) done.new.items }
{
    for task in left.as_slice() {
        if let Some(reply) = do_task(alloc, setup, batches, task.sender, task.number)? {
            done.push(reply)?;
        }
    }
    Ok(())
}
