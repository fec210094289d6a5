//! Queues of tasks, which parties share.

ghost use Rattle.std.specs.Prelude.{◌≡◌, ℕ, ◌-◌, ◌<◌, ◌≤◌, [], length, map, IfOk, All};
ghost use Rattle.crossbeam_queue.specs.Passes.{view, IsPassOf};
ghost use Rattle.spin_later.specs.declared.queue.TheConstants.{MAX_PARTIES, MAX_CAPACITY};
ghost use Rattle.spin_later.specs.History.{Happened};
ghost use Rattle.spin_later.specs.Rule.{known, new_hands, first, HasAll};
ghost use Rattle.spin_later.specs.Parties.{new_parties, hand_of, IsPartyOf, AreAll};

use crate::agreement::Agreement;
use crate::known::Known;
use crate::party::{Parties, Party};
use crate::rule::{Clears, Gathers, Grows, HistoryRule, Parts};
use crate::task::{Task, Tasks};
use crossbeam_queue::{Pass, RuledArrayQueue};
use spin_values::NoMemory;
use std::alloc::Global;
use std::marker::Model;
use std::sync::Wait;

/// The greatest number of parties.
pub const MAX_PARTIES: u8 = 8;

/// The greatest capacity.
pub const MAX_CAPACITY: u32 = 65_536;

// A queue of tasks under its rule.
pub(crate) type Ring<A> = RuledArrayQueue<Task, Known, HistoryRule<A>>;

/// A bounded queue of tasks that parties share by reference. Contracts see which queue it is, its number of parties
/// and its capacity. What each of its tasks is to be is said by its [`Agreement`].
#[derive(Drop)]
pub struct Queue<A: Agreement> {
    pub(crate) ring: Ring<A>,
    pub(crate) parties: u8,
}

impl<A: Agreement> Model for Queue<A> {
    ghost use Rattle.crossbeam_queue.specs.Passes.{ruled_capacity};
    ghost use Rattle.spin_later.specs.Parties.{QueueValue};

    ghost Value = { QueueValue };

    ghost view = { λ q. record {
      id = q.ring.table.shared.table_id;
      parties = q.parties;
      capacity = ruled_capacity q.ring;
    } };

    ghost use Rattle.std.specs.Prelude.{◌≤◌};

    ghost invariant = { λ q. 1 ≤ q.parties };
}

impl<A: Agreement> Queue<A> {
    /// An empty queue of this capacity, from 1 to [`MAX_CAPACITY`], and as many parties as asked, from 1 to
    /// [`MAX_PARTIES`]: the k-th, from 0, has number k and has sent and taken nothing.
    pub fn new(alloc: Global, parties: u8, capacity: u32) -> Result<(Queue<A>, Parties), NoMemory>
        requires some { 1 ≤ parties }
        requires most { parties ≤ MAX_PARTIES }
        requires room { 1 ≤ capacity }
        requires limit { capacity ≤ MAX_CAPACITY }
        ensures parties { IfOk result (λ made. made.0.parties ≡ parties) }
        ensures capacity { IfOk result (λ made. made.0.capacity ≡ capacity) }
        ensures members { IfOk result (λ made. made.1 ≡ new_parties made.0.id parties) }
    {
        let (ring, mut maker) = Ring::<A>::ruled(alloc, capacity as usize)?;
        let queue = Queue { ring, parties };
        queue.grow(&mut maker);
        let members = queue.members(alloc, maker)?;
        Ok((queue, members))
    }

    // Adds parties to the first one, until there are as many as the queue has.
    fn grow(&self, maker: &mut Pass<Task, Known>)
        requires pass { (maker.old.table_id ≡ self.now.id) × (maker.old.me.1 ≡ []) }
        requires first { view maker.old ≡ first }
        ensures pass { (maker.new.table_id ≡ self.now.id) × (maker.new.me.1 ≡ []) }
        ensures all { view maker.new ≡ known self.now.parties (new_hands 0 self.now.parties) [] }
    {
        for _ in 1..self.parties {
            self.ring.another::<Grows>(maker);
        }
    }

    // Splits a pass for each party off the first pass.
    fn members(&self, alloc: Global, mut maker: Pass<Task, Known>) -> Result<Parties, NoMemory>
        requires pass { (maker.table_id ≡ self.now.id) × (maker.me.1 ≡ []) }
        requires all { view maker ≡ known self.now.parties (new_hands 0 self.now.parties) [] }
        ensures { IfOk result (λ members. members ≡ new_parties self.now.id self.now.parties) }
    {
        let mut members = Parties::new(alloc);
        for number in 0..self.parties {
            let pass = self.ring.another::<Parts>(&mut maker);
            members.push(Party {
                pass,
                number,
                sent: 0,
            })?;
        }
        Ok(members)
    }

    // The pass of all parties.
    fn gather(&self, parties: Parties) -> Pass<Task, Known>
        requires queue { All (IsPartyOf self.now) parties }
        requires some { 0 < length parties }
        ensures pass { (result.table_id ≡ self.now.id) × (result.me.1 ≡ []) }
        ensures all { view result ≡ known self.now.parties (map hand_of parties) [] }
    {
        let mut others = parties.into_vec();
        let Some(last) = others.pop() else {
            unreachable!()
        };
        let mut taker = last.pass;
        while let Some(party) = others.pop() {
            self.ring.absorb::<Gathers>(&mut taker, party.pass);
        }
        taker
    }

    /// The tasks that are left once all parties have ended, each sender's in its order. There is one history of the
    /// queue that has what each party did and leaves these tasks, from the front: so each task that was sent was taken
    /// by one party, once, or is left once, and each task taken or left is the one that its sender sent under its
    /// number. Each is as agreed. After want of memory queue, parties and tasks are gone.
    pub fn close<W: Wait + Sync>(
        self,
        wait: &W,
        alloc: Global,
        parties: Parties,
    ) -> Result<Tasks, NoMemory>
        requires queue { All (IsPartyOf self) parties }
        requires all { AreAll self.parties parties }
        ensures history { IfOk result (λ left. Happened self.parties (map hand_of parties) left) }
        ensures agreed { IfOk result (All A.allows) }
    {
        let mut taker = self.gather(parties);
        self.clear(wait, alloc, &mut taker)
    }

    // Takes what is left, by a pass that stands for all parties.
    fn clear<W: Wait + Sync>(
        &self,
        wait: &W,
        alloc: Global,
        taker: &mut Pass<Task, Known>,
    ) -> Result<Tasks, NoMemory>
        requires pass { (taker.old.table_id ≡ self.now.id) × (taker.old.me.1 ≡ []) }
        requires some { 0 < length (view taker.old).hands }
        requires all { HasAll (view taker.old) }
        requires left { (view taker.old).left ≡ [] }
        ensures history { IfOk result (λ left. Happened (view taker.old).parties (view taker.old).hands left) }
        ensures agreed { IfOk result (All A.allows) }
    {
        let mut left = Tasks::new(alloc);
        for _ in wait.forever() {
            match self.ring.pop_as::<Clears<A>, W>(wait, taker) {
                Some(task) => left.push(task)?,
                None => return Ok(left),
            }
        }
        unreachable!()
    }
}
