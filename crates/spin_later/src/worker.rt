//! One party of a run: it puts its batch, and takes and does tasks.

ghost use Rattle.std.specs.Prelude.{◌≡◌, ◌+◌, ◌-◌, ◌<◌, ◌^◌, [], length, All, OnOk};
ghost use Rattle.spin_table.specs.SetupOf.{data_of};
ghost use Rattle.spin_later.specs.Parties.{IsSameParty};
ghost use Rattle.spin_later.specs.Batches.{CanDo};
ghost use Rattle.spin_later.specs.Inner.Work.{IsRight, IsFresh};

use crate::agreement::AnyTask;
use crate::batch::{Batches, Call};
use crate::doing::{Done, do_task};
use crate::party::Party;
use crate::queue::Queue;
use spin_code::Sincere;
use spin_objects::Catalogue;
use spin_table::Setup;
use spin_values::NoMemory;
use std::alloc::Global;
use std::sync::{Arc, Wait};

// A party, what it has done, and whether there was memory for it.
#[derive(Drop)]
pub(crate) struct Worker {
    pub(crate) party: Party,
    pub(crate) done: Vec<Done>,
    pub(crate) outcome: Result<(), NoMemory>,
}

impl Worker {
    // Puts the batch of the party's number, and takes and does tasks until it finds the queue empty, or memory runs
    // out.
    pub(crate) fn run<W: Wait + Sync>(
        &mut self,
        wait: &W,
        alloc: Global,
        queue: &Queue<AnyTask>,
        setup: &Setup,
        batches: &Batches,
    )
        requires sincere { ⟦<Catalogue as Sincere>⟧.sincere setup.now.catalogue }
        requires can { All (All (CanDo (data_of setup.now))) batches.now }
        requires few { All (λ batch. length batch < 2 ^ 32) batches.now }
        requires fresh { IsFresh queue.now (length batches.now) self.old }
        ensures same { IsSameParty self.old.party self.new.party }
        ensures right { All (IsRight (data_of setup.now) batches.now) self.new.done.items }
    {
        self.outcome = self.work(wait, alloc, queue, setup, batches);
    }

    // The same, with the outcome as its answer.
    fn work<W: Wait + Sync>(
        &mut self,
        wait: &W,
        alloc: Global,
        queue: &Queue<AnyTask>,
        setup: &Setup,
        batches: &Batches,
    ) -> Result<(), NoMemory>
        requires sincere { ⟦<Catalogue as Sincere>⟧.sincere setup.now.catalogue }
        requires can { All (All (CanDo (data_of setup.now))) batches.now }
        requires few { All (λ batch. length batch < 2 ^ 32) batches.now }
        requires fresh { IsFresh queue.now (length batches.now) self.old }
        ensures same { IsSameParty self.old.party self.new.party }
        ensures right { All (IsRight (data_of setup.now) batches.now) self.new.done.items }
    {
        let own = batches.get(usize::from(self.party.number()));
        for call in own.as_slice() {
            self.put(wait, alloc, queue, setup, batches, call)?;
        }
        for _ in wait.forever() {
            if !self.do_next(wait, alloc, queue, setup, batches)? {
                return Ok(());
            }
        }
        unreachable!()
    }

    // Puts the call as a task; where the queue is full it takes a task, does it, and tries again.
    fn put<W: Wait + Sync>(
        &mut self,
        wait: &W,
        alloc: Global,
        queue: &Queue<AnyTask>,
        setup: &Setup,
        batches: &Batches,
        call: &Call,
    ) -> Result<(), NoMemory>
        requires sincere { ⟦<Catalogue as Sincere>⟧.sincere setup.now.catalogue }
        requires can { All (All (CanDo (data_of setup.now))) batches.now }
        requires queue { self.old.party.queue ≡ queue.now.id }
        requires room { length self.old.party.sent < 2 ^ 32 - 1 }
        requires right { All (IsRight (data_of setup.now) batches.now) self.old.done.items }
        ensures same { IsSameParty self.old.party self.new.party }
        ensures sent { OnOk result (length self.new.party.sent ≡ length self.old.party.sent + 1) }
        ensures right { All (IsRight (data_of setup.now) batches.now) self.new.done.items }
    {
        let mut version = Arc::try_clone(&call.version)?;
        let mut asked = call.call.copy()?;
        for _ in wait.forever() {
            let Err(full) = self.party.put(wait, queue, version, asked) else {
                return Ok(());
            };
            version = full.task.version;
            asked = full.task.call;
            self.do_next(wait, alloc, queue, setup, batches)?;
        }
        unreachable!()
    }

    // Takes a task and does it. False where there was none.
    fn do_next<W: Wait + Sync>(
        &mut self,
        wait: &W,
        alloc: Global,
        queue: &Queue<AnyTask>,
        setup: &Setup,
        batches: &Batches,
    ) -> Result<bool, NoMemory>
        requires sincere { ⟦<Catalogue as Sincere>⟧.sincere setup.now.catalogue }
        requires can { All (All (CanDo (data_of setup.now))) batches.now }
        requires queue { self.old.party.queue ≡ queue.now.id }
        requires right { All (IsRight (data_of setup.now) batches.now) self.old.done.items }
        ensures same { IsSameParty self.old.party self.new.party }
        ensures sent { self.new.party.sent ≡ self.old.party.sent }
        ensures right { All (IsRight (data_of setup.now) batches.now) self.new.done.items }
    {
        let Some(task) = self.party.take(wait, queue) else {
            return Ok(false);
        };
        if let Some(done) = do_task(alloc, setup, batches, task.sender, task.number)? {
            self.done.push(done)?;
        }
        Ok(true)
    }
}
