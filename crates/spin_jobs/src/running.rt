//! Jobs by their numbers, done by workers side by side.

ghost use Rattle.std.specs.Prelude.{◌≡◌, ℕ, ◌+◌, ◌<◌, ◌≤◌, ◌^◌, length, All, IfOk};
ghost use Rattle.spin_jobs.specs.declared.claim.TheConstants.{MAX_WORKERS};
ghost use Rattle.spin_jobs.specs.Claims.{times, once_below};
ghost use Rattle.spin_jobs.specs.Inner.Numbered.{EachBelow, AreGivenBy};
ghost use Rattle.spin_jobs.specs.Inner.Workers.{OfWord};

use crate::claim::{Claim, ClaimRule, MAX_WORKERS};
use crate::order::in_order;
use crate::team::{gather, hire, run_team};
use atomic_table::{Seat, Table};
use spin_outside::Gate;
use spin_proto::Reply;
use spin_values::{NoMemory, Sequence};
use std::alloc::Global;
use std::thread::Threads;

/// Replies in the order of their jobs.
pub type Replies = Sequence<Reply>;

// Does the jobs of the numbers below the count, by so many workers side by side. The k-th reply is one that the call
// with k gave, whatever the schedule.
pub(crate) fn run_numbered<R, F, G>(
    rt: &R,
    alloc: Global,
    count: usize,
    workers: u8,
    do_job: &F,
    gate: &G,
) -> Result<Replies, NoMemory>
where
    R: Threads + Sync,
    F: Fn(usize) -> Result<Reply, NoMemory> + Sync,
    G: Gate,
    requires some { 1 ≤ workers }
    requires most { workers ≤ MAX_WORKERS }
    requires few { count < 2 ^ 32 }
    requires can { EachBelow count (F.pre do_job.now) }
    ensures { IfOk result (AreGivenBy (F.post do_job.now) count) }
{
    let (table, mut caller) = Table::<(), Claim, u64, ClaimRule, Global>::of_words(
        alloc,
        &[0],
        &(count as u64),
    )?;
    let word = &table.shared;
    let mut team = hire(alloc, word, &mut caller, workers)?;
    run_team(rt, word, team.as_mut_slice(), count, do_job, gate);
    let done = gather(alloc, word, &mut caller, team, count, do_job)?;
    close(table, caller);
    Ok(Sequence::from_vec(in_order(alloc, count, done)?))
}

// Gives the word back. The numbers below it are those that were claimed.
fn close(table: Table<(), Claim, u64, ClaimRule, Global>, caller: Seat<(), Claim>) -> u64
    requires table { OfWord table.shared.key table.shared caller }
    requires slots { table.shared.table_id.slots ≡ 0 }
    requires whole { caller.me.0.workers + caller.me.0.room ≡ MAX_WORKERS }
    ensures { (x : ℕ) → times x caller.me.0.claimed ≡ once_below x result }
{
    let closed = table.close_with(caller);
    let word = closed.word(0);
    closed.free();
    word
}
