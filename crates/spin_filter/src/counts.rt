//! What came of records, in numbers.

ghost use Rattle.std.specs.Prelude.{◌≡◌, ◌+◌, ◌++◌, ◌∷◌, [], ℕ, List, All, map, IfOk};
ghost use Rattle.spin_table.specs.SetupOf.{data_of};
ghost use Rattle.spin_table.specs.Soundness.{IsSoundVersion};
ghost use Rattle.spin_filter.specs.Counting as specs;
ghost use Rattle.spin_filter.specs.Counting.{Happened, Marked, BindingAt, IsHit, AreCounts, nothing, binding_of, with_step, with_outcome, with_job, with_losts};
ghost use Rattle.spin_filter.specs.Listing.{bindings_at};

use crate::hits::Hit;
use crate::listing::list_hits;
use crate::tally::{Tally, one_more};
use spin_endpoint::MAX_ENDPOINTS;
use spin_proto::{Reply, ReplyView, Step};
use spin_raise::Answer;
use spin_table::{Setup, Version};
use spin_values::NoMemory;
use std::alloc::Global;

/// How many outcomes a raise may have.
pub const OUTCOMES: usize = 7;

/// How many faults a header may have, and one more: they are counted from 1.
pub const FAULTS: usize = 8;

/// What came of records, in numbers. Each count stands still at the greatest number of 64 bits.
#[derive(Debug, Drop)]
pub struct Counts {
    /// Whole records.
    pub records: u64,
    /// Raises by their outcome: a value, done, a default, no handler; an unknown event, wrong arguments, spent.
    pub outcomes: Tally,
    /// Jobs that were done.
    pub jobs: u64,
    /// Handlers that ran.
    pub runs: u64,
    /// Packets that were dropped, by the number of the fault.
    pub drops: Tally,
    /// Sends by the number of the endpoint.
    pub sends: Tally,
    /// Sends that were lost, by the number of the endpoint.
    pub lost: Tally,
    /// How often each binding ran.
    pub hits: Vec<Hit>,
}

// The outcome of a raise that was done.
fn answered(answer: Answer) -> usize
    ensures { result ≡ specs.answered answer }
{
    match answer {
        Answer::Value(_) => 0,
        Answer::Done => 1,
        Answer::Default(_) => 2,
        Answer::NoHandler => 3,
    }
}

// The outcome of a raise whose reply stands whole.
fn outcome_of_reply(reply: &Reply) -> usize
    ensures { result ≡ specs.outcome_of reply.now }
{
    match reply {
        Reply::Ran { answer, .. } => answered(*answer),
        Reply::Queued(_) => 7,
        Reply::UnknownEvent => 4,
        Reply::WrongArgs => 5,
        Reply::Spent => 6,
    }
}

/// The number of the outcome of a raise.
pub fn outcome_of(reply: &ReplyView) -> usize
    ensures { result ≡ specs.outcome_of reply.now }
{
    match reply.ending {
        Ok(answer) => answered(answer),
        Err(whole) => outcome_of_reply(whole),
    }
}

impl Counts {
    // Nothing came of anything yet, and these are the hits.
    fn with_hits(alloc: Global, hits: Vec<Hit>) -> Result<Counts, NoMemory>
        requires { All (IsHit []) hits.items }
        ensures { IfOk result (λ counts. AreCounts (map binding_of hits.items) nothing counts) }
    {
        Ok(Counts {
            records: 0,
            outcomes: Tally::new(alloc, OUTCOMES)?,
            jobs: 0,
            runs: 0,
            drops: Tally::new(alloc, FAULTS)?,
            sends: Tally::new(alloc, MAX_ENDPOINTS)?,
            lost: Tally::new(alloc, MAX_ENDPOINTS)?,
            hits,
        })
    }

    /// Nothing came of anything yet, and no binding is listed.
    pub fn new(alloc: Global) -> Result<Counts, NoMemory>
        ensures { IfOk result (λ counts. AreCounts [] nothing counts) }
    {
        Counts::with_hits(alloc, Vec::new(alloc))
    }

    /// Nothing came of anything yet; listed is each binding that is live at the version, and each event's default.
    pub fn of(alloc: Global, setup: &Setup, version: &Version) -> Result<Counts, NoMemory>
        requires { IsSoundVersion (data_of setup.now) version.now }
        ensures { IfOk result (λ counts. AreCounts (bindings_at version.now.state) nothing counts) }
    {
        let hits = list_hits(alloc, setup, version)?;
        Counts::with_hits(alloc, hits)
    }

    /// Counts the outcome of a raise.
    pub fn note_outcome(&mut self, outcome: usize)
        ensures { (listed : List BindingAt) (h : Happened) → AreCounts listed h self.old → AreCounts listed (with_outcome outcome h) self.new }
    {
        self.records = one_more(self.records);
        self.outcomes.add(outcome);
    }

    /// Counts a job.
    pub fn note_job(&mut self)
        ensures { (listed : List BindingAt) (h : Happened) → AreCounts listed h self.old → AreCounts listed (with_job h) self.new }
    {
        self.jobs = one_more(self.jobs);
    }

    /// Counts a send that is lost to the endpoint of that number.
    pub fn note_lost(&mut self, endpoint: u8)
        ensures { (listed : List BindingAt) (h : Happened) → AreCounts listed h self.old → AreCounts listed (with_losts (endpoint ∷ []) h) self.new }
    {
        self.lost.add(endpoint as usize);
    }

    /// Counts a step, which may be the first of a job.
    pub fn note_step(&mut self, step: &Step, is_first: bool)
        ensures { let marked : Marked = record { first = is_first; taken = step.now } in
            (listed : List BindingAt) (h : Happened) → AreCounts listed h self.old → AreCounts listed (with_step marked h) self.new }
    {
        match step {
            Step::Run { .. } => {
                self.runs = one_more(self.runs);
                note_hits(&mut self.hits, step, is_first);
            }
            Step::Job { .. } => note_hits(&mut self.hits, step, is_first),
            Step::Dropped(fault) => self.drops.add(fault.number() as usize),
            Step::Send { endpoint, .. } => self.sends.add(*endpoint as usize),
            _ => {}
        }
    }
}

// Counts a step at each binding.
fn note_hits(hits: &mut Vec<Hit>, step: &Step, is_first: bool)
    ensures listed { map binding_of hits.new.items ≡ map binding_of hits.old.items }
    ensures noted { let marked : Marked = record { first = is_first; taken = step.now } in
        (steps : List Marked) → All (IsHit steps) hits.old.items → All (IsHit (steps ++ marked ∷ [])) hits.new.items }
{
    for hit in hits.iter_mut() {
        hit.note(step, is_first);
    }
}
