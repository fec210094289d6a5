//! A team of workers: hired, run side by side, and gathered.

ghost use Rattle.std.specs.Prelude.{◌≡◌, ℕ, ◌+◌, ◌-◌, ◌<◌, ◌≤◌, ◌^◌, [], length, All, IfOk, OnOk};
ghost use Rattle.spin_jobs.specs.declared.claim.TheConstants.{MAX_WORKERS};
ghost use Rattle.spin_jobs.specs.Inner.Numbered.{EachBelow};
ghost use Rattle.spin_jobs.specs.Claims.{claim};
ghost use Rattle.spin_jobs.specs.Inner.Workers.{OfWord, Ready, Finished, Gathered, PastEnd};

use crate::claim::{Absorbs, Claim, Hires, MAX_WORKERS};
use crate::worker::{Done, Word, Worker};
use atomic_table::Seat;
use spin_outside::Gate;
use spin_proto::Reply;
use spin_values::NoMemory;
use spin_word::MAX_LANES;
use std::alloc::Global;
use std::thread;
use std::thread::Threads;

// Splits a seat off the caller's for each worker.
pub(crate) fn hire(
    alloc: Global,
    word: &Word,
    caller: &mut Seat<(), Claim>,
    workers: u8,
) -> Result<Vec<Worker>, NoMemory>
    requires word { OfWord word.now.key word.now caller.old }
    requires caller { caller.old.me ≡ (claim 0 MAX_WORKERS [], []) }
    requires most { workers ≤ MAX_WORKERS }
    ensures same { caller.new.table_id ≡ caller.old.table_id }
    ensures caller { OnOk result (caller.new.me ≡ (claim 0 (MAX_WORKERS - workers) [], [])) }
    ensures team { IfOk result (λ team. All (Ready word.now.key word.now) team.items) }
    ensures len { IfOk result (λ team. length team.items ≡ workers) }
{
    let mut team = Vec::with_capacity(alloc, usize::from(workers))?;
    for _ in 0..workers {
        team.push(Worker {
            seat: word.split_seat::<Hires>(caller),
            done: Vec::new(alloc),
            outcome: Ok(()),
        })?;
    }
    Ok(team)
}

// Runs the team side by side. The numbers of its workers at the gate follow on those of lanes.
pub(crate) fn run_team<R, F, G>(
    rt: &R,
    word: &Word,
    team: &mut [Worker],
    count: usize,
    do_job: &F,
    gate: &G,
)
where
    R: Threads + Sync,
    F: Fn(usize) -> Result<Reply, NoMemory> + Sync,
    G: Gate,
    requires few { count < 2 ^ 32 }
    requires most { length team.old ≤ MAX_WORKERS }
    requires can { EachBelow count (F.pre do_job.now) }
    requires ready { All (Ready count word.now) team.old }
    ensures team { All (Finished (F.post do_job.now) count word.now) team.new }
    ensures len { length team.new ≡ length team.old }
{
    thread::for_each_mut(
        rt,
        team,
        usize::from(MAX_WORKERS),
        &|place, worker: &mut Worker|
            requires place { place < MAX_WORKERS }
            requires few { count < 2 ^ 32 }
            requires can { EachBelow count (F.pre do_job.now) }
            requires ready { Ready count word.now worker.old }
            ensures { Finished (F.post do_job.entry.now) count word.entry.now worker.new }
        { worker.run(word, count, do_job, MAX_LANES + place as u8, gate) },
    );
}

// Joins the team, and gives what it did.
pub(crate) fn gather<F: Fn(usize) -> Result<Reply, NoMemory>>(
    alloc: Global,
    word: &Word,
    caller: &mut Seat<(), Claim>,
    mut team: Vec<Worker>,
    count: usize,
    _do_job: &F,
) -> Result<Vec<Done>, NoMemory>
    requires word { OfWord count word.now caller.old }
    requires caller { (caller.old.me.1 ≡ []) × (caller.old.me.0.claimed ≡ []) }
    requires whole { let v = caller.old.me.0 in
        v.workers + v.room + length team.items ≡ MAX_WORKERS }
    requires some { 0 < length team.items }
    requires team { All (Finished (F.post _do_job.now) count word.now) team.items }
    ensures same { caller.new.table_id ≡ caller.old.table_id }
    ensures whole { OnOk result (caller.new.me.0.workers + caller.new.me.0.room ≡ MAX_WORKERS) }
    ensures past { OnOk result (PastEnd count caller.new.me.0) }
    ensures done { IfOk result (λ done.
        Gathered (F.post _do_job.now) count caller.new.me.0 done.items) }
{
    let mut all = Vec::with_capacity(alloc, count)?;
    'team: while let Some(worker) = team.pop() {
        let Worker {
            seat,
            mut done,
            outcome,
        } = worker;
        outcome?;
        word.join_seat::<Absorbs>(caller, seat);
        all.append(&mut done)?;
    }
    Ok(all)
}
