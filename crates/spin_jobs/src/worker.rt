//! One worker: it claims the next number by one step, does that job, and ends at a number that is no job's.

ghost use Rattle.std.specs.Prelude.{◌≡◌, ◌<◌, ◌^◌, All, OnOk};
ghost use Rattle.spin_jobs.specs.Inner.Numbered.{EachBelow};
ghost use Rattle.spin_jobs.specs.Claims.{Took};
ghost use Rattle.spin_jobs.specs.Inner.Workers.{OfWord, CanClaim, Ready, Finished, IsRight};
ghost use Rattle.spin_jobs.specs.Inner.Workers.{StandsForOne, ClaimedAll};

use crate::claim::{Claim, ClaimRule, Takes};
use atomic_table::{Seat, Shared};
use spin_outside::Gate;
use spin_proto::Reply;
use spin_values::NoMemory;

// The claim word, as workers see it.
pub(crate) type Word = Shared<(), Claim, u64, ClaimRule>;

// The reply to a job, and the job's number.
#[derive(Drop)]
pub(crate) struct Done {
    pub(crate) number: u64,
    pub(crate) reply: Reply,
}

// A worker's seat at the claim word, what it has done, and whether there was memory for it.
#[derive(Drop)]
pub(crate) struct Worker {
    pub(crate) seat: Seat<(), Claim>,
    pub(crate) done: Vec<Done>,
    pub(crate) outcome: Result<(), NoMemory>,
}

impl Worker {
    // Does jobs until none is left or memory ran out, and passes the gate before each.
    pub(crate) fn run<F: Fn(usize) -> Result<Reply, NoMemory>, G: Gate>(
        &mut self,
        word: &Word,
        count: usize,
        do_job: &F,
        lane: u8,
        gate: &G,
    )
        requires few { count < 2 ^ 32 }
        requires can { EachBelow count (F.pre do_job.now) }
        requires ready { Ready (count) word.now self.old }
        ensures { Finished (F.post do_job.now) count word.now self.new }
    {
        self.outcome = self.work(word, count, do_job, lane, gate);
    }

    // The same, with the outcome as its answer.
    fn work<F: Fn(usize) -> Result<Reply, NoMemory>, G: Gate>(
        &mut self,
        word: &Word,
        count: usize,
        do_job: &F,
        lane: u8,
        gate: &G,
    ) -> Result<(), NoMemory>
        requires few { count < 2 ^ 32 }
        requires can { EachBelow count (F.pre do_job.now) }
        requires ready { Ready (count) word.now self.old }
        ensures table { self.new.seat.table_id ≡ word.now.table_id }
        ensures seat { StandsForOne self.new.seat }
        ensures right { All (IsRight (F.post do_job.now) count) self.new.done.items }
        ensures whole { OnOk result (ClaimedAll count self.new) }
    {
        let mut number = self.claim(word);
        while number < count as u64 {
            gate.pass(lane, number as u32);
            let reply = do_job(number as usize)?;
            self.done.push(Done { number, reply })?;
            number = self.claim(word);
        }
        Ok(())
    }

    // Claims the next number.
    fn claim(&mut self, word: &Word) -> u64
        requires word { OfWord word.now.key word.now self.old.seat }
        requires can { CanClaim word.now.key self.old.seat }
        requires few { word.now.key < 2 ^ 32 }
        ensures table { self.new.seat.table_id ≡ self.old.seat.table_id }
        ensures slots { self.new.seat.me.1 ≡ self.old.seat.me.1 }
        ensures took { Took self.old.seat.me.0 result self.new.seat.me.0 }
        ensures same { self.new.done ≡ self.old.done }
    {
        word.fetch_add::<Takes>(&mut self.seat, 0, 1)
    }
}
