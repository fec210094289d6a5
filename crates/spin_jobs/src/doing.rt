//! All jobs of a segment, each on its own version.

ghost use Rattle.std.specs.Prelude.{◌≡◌, ◌<◌, ◌≤◌, ◌^◌, length, max, min, All, IfOk};
ghost use Rattle.std.specs.List.{AllZip};
ghost use Rattle.spin_objects.specs.Units.{IsSincereBy};
ghost use Rattle.spin_table.specs.SetupOf.{data_of};
ghost use Rattle.spin_jobs.specs.declared.claim.TheConstants.{MAX_WORKERS};
ghost use Rattle.spin_jobs.specs.Jobs.{CanRun, IsReplyTo};
ghost use Rattle.spin_jobs.specs.Inner.Numbered.{IsReplyAt};

use crate::claim::MAX_WORKERS;
use crate::running::{Replies, run_numbered};
use spin_code::Sincere;
use spin_objects::Catalogue;
use spin_outside::Gate;
use spin_proto::{Job, Jobs, Reply, job_path};
use spin_table::Setup;
use spin_values::NoMemory;
use std::alloc::Global;
use std::thread::Threads;

/// Does the jobs by so many workers side by side. The k-th reply is what the call of job k comes to on its own version,
/// by [`job_path`], whatever the schedule; it leaves no further job.
///
/// A worker claims the number of the next job by one atomic step, passes the gate and does that job, until none is
/// left. Proved is that each number is claimed once, and that each reply is one that its job has. That a worker does
/// what it claimed no more than once, and passes the gate once before it, as number 8 + w where its place is w, no
/// clause says: this is tested. Workers are from 1 to [`MAX_WORKERS`], of which no more are at work than there are
/// jobs; where a thread can't be started, its worker's part is done by the caller or another worker. A worker that has
/// no memory ends, the others do all jobs that are left, and the answer is `NoMemory`.
///
/// Each version is sound for the setup, each call belongs to its version, and the catalogue's objects do
/// what they were handed in with. Versions are lent, and replies moved. Besides what the jobs take, it is linear in
/// their number.
pub fn run_all<R: Threads + Sync, G: Gate>(
    rt: &R,
    alloc: Global,
    setup: &Setup,
    jobs: &Jobs,
    workers: u8,
    gate: &G,
) -> Result<Replies, NoMemory>
    requires some { 1 ≤ workers }
    requires most { workers ≤ MAX_WORKERS }
    requires few { length jobs.now < 2 ^ 32 }
    requires sincere { ⟦<Catalogue as Sincere>⟧.sincere setup.now.catalogue }
    requires jobs { All (CanRun (data_of setup.now)) jobs.now }
    ensures { IfOk result (AllZip (IsReplyTo (data_of setup.now)) jobs.now) }
{
    let jobs = jobs.as_slice();
    let do_numbered = |number: usize| -> Result<Reply, NoMemory>
        requires there { number < length jobs.now }
        requires sincere { IsSincereBy does asks follows setup.now.catalogue.natives }
        requires can { All (CanRun (data_of setup.now)) jobs.now }
        ensures { IfOk result (IsReplyAt (data_of setup.entry.now) jobs.entry.now number) }
    { do_job(alloc, setup, jobs, number) };
    let team = team_size(workers, jobs.len());
    run_numbered(rt, alloc, jobs.len(), team, &do_numbered, gate)
}

// How many of the workers are wanted for so many jobs: no more than there are jobs, and one at least.
fn team_size(workers: u8, jobs: usize) -> u8
    requires some { 1 ≤ workers }
    ensures { result ≡ max 1 (min workers jobs) }
{
    if jobs == 0 {
        1
    } else if jobs < usize::from(workers) {
        jobs as u8
    } else {
        workers
    }
}

// The reply to the job of that number, on its own version.
fn do_job(alloc: Global, setup: &Setup, jobs: &[Job], number: usize) -> Result<Reply, NoMemory>
    requires there { number < length jobs.now }
    requires sincere { ⟦<Catalogue as Sincere>⟧.sincere setup.now.catalogue }
    requires can { All (CanRun (data_of setup.now)) jobs.now }
    ensures { IfOk result (IsReplyAt (data_of setup.now) jobs.now number) }
{
    let job = &jobs[number];
    job_path(alloc, &job.version, setup, &job.call)
}
