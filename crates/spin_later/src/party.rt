//! Parties, which put tasks into a queue and take tasks out of it.

use crate::agreement::Agreement;
use crate::known::Known;
use crate::queue::Queue;
use crate::rule::{Puts, Takes};
use crate::task::{Full, Task};
use crossbeam_queue::Pass;
use spin_proto::JobCall;
use spin_table::Version;
use spin_values::Sequence;
use std::marker::Model;
use std::sync::{Arc, Wait};

/// Parties, in order.
pub type Parties = Sequence<Party>;

/// Puts tasks into a queue and takes tasks out of it. Contracts see its queue with the number of parties, its number,
/// the tasks that it sent and those that it took, both in order.
#[derive(Drop)]
pub struct Party {
    pub(crate) pass: Pass<Task, Known>,
    pub(crate) number: u8,
    /// How many tasks it sent.
    pub(crate) sent: u32,
}

impl Model for Party {
    ghost use Rattle.std.specs.Coded.{codes};
    ghost use Rattle.crossbeam_queue.specs.Passes.{view as view_of};
    ghost use Rattle.spin_code.specs.contracts.test.Test as test;
    ghost use Rattle.spin_later.specs.Parties.{PartyValue, party_value};
    ghost use Rattle.spin_later.specs.Inner.Passes.{only_hand, IsPartyPass};

    ghost Value = { PartyValue };

    ghost coded = { Prim.hlevel (codes, test.the_row.coded) };

    ghost view = { λ p. party_value p.pass.table_id (view_of p.pass).parties (only_hand (view_of p.pass).hands) };

    ghost invariant = { λ p. IsPartyPass p.pass p.number p.sent };
}

impl Party {
    ghost use Rattle.spin_later.specs.declared.task.Task.{Task as TaskValue};
    ghost use Rattle.std.specs.Prelude.{◌≡◌, ◌-◌, ◌<◌, ◌^◌, length, MatchResult, MatchOption, IfSome};
    ghost use Rattle.spin_later.specs.Parties.{sent as sent_after, took, IsNext, WasAt};

    /// The party's number.
    pub fn number(&self) -> u8
        ensures { result ≡ self.now.number }
    {
        self.number
    }

    /// How many tasks it sent.
    pub fn sent(&self) -> u32
        ensures { result ≡ length self.now.sent }
    {
        self.sent
    }

    /// Puts a task with this version and call at the queue's end, and answers its number, which counts this party's
    /// tasks from 0. At [`Full`] the task comes back and nothing is sent. The task is as agreed, and the party has sent
    /// fewer than 4,294,967,295 tasks.
    ///
    /// Of [`Full`] it is proved that some history has what this party did and holds as many tasks as the queue may. In
    /// a queue of one party that is the queue's own history, so `Full` comes only where the queue is full. In a queue
    /// of two or more parties there always is such a history, since puts and takes of others can make a queue hold any
    /// number: there the clause excludes no `Full`, and that it comes only from a full queue is tested.
    ///
    /// It may wait for another thread that is in the middle of a put or a take.
    pub fn put<A: Agreement, W: Wait + Sync>(
        &mut self,
        wait: &W,
        queue: &Queue<A>,
        version: Arc<Version>,
        call: JobCall,
    ) -> Result<u32, Full>
        requires queue { self.old.queue ≡ queue.now.id }
        requires room { length self.old.sent < 2 ^ 32 - 1 }
        requires agreed { let task : TaskValue = record {
          sender = self.old.number;
          number = length self.old.sent;
          version = version;
          call = call;
        } in A.allows task }
        ensures { let task : TaskValue = record {
          sender = self.old.number;
          number = length self.old.sent;
          version = version;
          call = call;
        } in
            MatchResult result
            (λ number. (number ≡ length self.old.sent) × (self.new ≡ sent_after self.old task))
            (λ full. (full.task ≡ task) × (self.new ≡ self.old) × WasAt self.old queue.now.capacity) }
    {
        let number = self.sent;
        let task = Task {
            sender: self.number,
            number,
            version,
            call,
        };
        match queue.ring.push_as::<Puts, W>(wait, &mut self.pass, task) {
            Ok(()) => {
                self.sent += 1;
                Ok(number)
            }
            Err(task) => Err(Full { task }),
        }
    }

    /// Takes the task at the queue's front, which is as agreed. Of each sender the tasks come in the order sent.
    ///
    /// Of `None` it is proved that some history has what this party did and holds nothing. In a queue of one party it
    /// comes only where the queue is empty; in a queue of two or more the clause excludes no `None`, as at
    /// [`put`](Party::put), and that it comes only from an empty queue is tested.
    ///
    /// It may wait for another thread that is in the middle of a put or a take.
    pub fn take<A: Agreement, W: Wait + Sync>(&mut self, wait: &W, queue: &Queue<A>) -> Option<Task>
        requires queue { self.old.queue ≡ queue.now.id }
        ensures taken { MatchOption result
            ((self.new ≡ self.old) × WasAt self.old 0)
            (λ task. (self.new ≡ took self.old task) × (task.sender < self.old.parties) × IsNext self.old.taken task) }
        ensures agreed { IfSome result A.allows }
    {
        queue.ring.pop_as::<Takes<A>, W>(wait, &mut self.pass)
    }
}
