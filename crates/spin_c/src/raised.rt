//! The turns of an open raise that leave it open.

ghost use Rattle.std.specs.Prelude.{◌≡◌, is_some, slice_get};
ghost use Rattle.spin_host.specs.Frames.{due_in};
ghost use Rattle.spin_host.specs.Levels.{OnTop};
ghost use Rattle.spin_c.specs.declared.raising.Raising.TheVariants as raising;
ghost use Rattle.spin_c.specs.Moves.{Declines, IsArgument, IsSent, IsStaying, MovesOpen, OpensWithin, due_by};
ghost use Rattle.spin_c.specs.Moves.{given_told, missed_if};
ghost use Rattle.spin_c.specs.Raisings.{IsWellOpened, setup_of};

use crate::given::spare_bytes;
use crate::moves::{Move, Upshot};
use crate::raising::Opened;
use crate::uttered::{fault_told, item_bytes, item_told, refusal_told};
use spin_host::RaiseFault;
use spin_values::{Args, NoMemory, Value};
use std::alloc::Global;

// Whether a firing is due, by what a raise from within is told.
fn due_by(told: &Result<(), RaiseFault>) -> bool
    ensures { result ≡ due_by told.now }
{
    !matches!(told, Err(RaiseFault::NotDue))
}

// What is told where there was no memory for what is handed in.
fn missed_if(due: bool) -> Upshot
    ensures { result ≡ missed_if due }
{
    if due {
        Upshot::NoMemory
    } else {
        Upshot::NotDue
    }
}

impl Opened {
    // Opens a raise from within.
    fn within(&mut self, event: u8, args: Args) -> Upshot
        requires well { IsWellOpened self.old }
        ensures well { IsWellOpened self.new }
        ensures party { self.new.party ≡ self.old.party }
        ensures opens { OpensWithin self.old event args self.new.raise result }
    {
        let place = self.raise.place();
        match self.raise.begin_within(self.party.hub.setup(), event, args) {
            Ok(()) => Upshot::Begun(place),
            Err(fault) => refusal_told(place, fault),
        }
    }

    // Whether a firing is due. No event 0 is raised from within, and why not is told, first that none is due.
    fn is_due(&mut self, alloc: Global) -> bool
        requires well { IsWellOpened self.old }
        ensures same { self.new ≡ self.old }
        ensures due { OnTop (setup_of self.old) self.old.raise
            (λ sig e. result ≡ is_some (due_in e self.old.raise.top.frame)) }
    {
        let told = self
            .raise
            .begin_within(self.party.hub.setup(), 0, Args::new(alloc));
        due_by(&told)
    }

    // Hands out an argument of the innermost raise.
    fn argument(&mut self, alloc: Global, index: u64) -> Upshot
        ensures same { self.new ≡ self.old }
        ensures told { IsArgument (slice_get self.old.raise.top.frame.progress.args index) result }
    {
        let mut spare = self.raise.lend(alloc);
        let told = match self.raise.args().as_slice().get(index as usize) {
            None => Upshot::NoArgument,
            Some(Value::Word(word)) => Upshot::Word(*word),
            Some(Value::Bytes(bytes)) => match spare_bytes(alloc, &mut spare, bytes.as_slice()) {
                Ok(copy) => Upshot::Bytes(copy),
                Err(NoMemory) => Upshot::NoMemory,
            },
        };
        self.raise.take_back(spare);
        told
    }

    // Tells what the last answer gave at an index.
    fn tell_given(&self, index: u64) -> Upshot
        ensures { result ≡ given_told self.now.raise.top.frame.event (slice_get self.now.raise.given index) }
    {
        match self.raise.given().get(index as usize) {
            Some(item) => Upshot::Told(item_told(self.raise.event(), item)),
            None => Upshot::NoStep,
        }
    }

    // Hands out the bytes that the last answer sends at an index.
    fn hand_given(&mut self, alloc: Global, index: u64) -> Upshot
        ensures same { self.new ≡ self.old }
        ensures told { IsSent (slice_get self.old.raise.given index) result }
    {
        let mut spare = self.raise.lend(alloc);
        let told = match self.raise.given().get(index as usize) {
            None => Upshot::NoStep,
            Some(item) => match spare_bytes(alloc, &mut spare, item_bytes(item)) {
                Ok(copy) => Upshot::Bytes(copy),
                Err(NoMemory) => Upshot::NoMemory,
            },
        };
        self.raise.take_back(spare);
        told
    }

    // Passes over what is due.
    fn decline(&mut self) -> Upshot
        requires well { IsWellOpened self.old }
        ensures well { IsWellOpened self.new }
        ensures party { self.new.party ≡ self.old.party }
        ensures declines { Declines self.old self.new.raise result }
    {
        match self.raise.declined(self.party.hub.setup()) {
            Ok(()) => Upshot::Done,
            Err(fault) => fault_told(fault),
        }
    }

    // Does what is asked, which leaves the raise open.
    #[inline(always)]
    pub(crate) fn turn(&mut self, alloc: Global, asked: Move) -> Upshot
        requires well { IsWellOpened self.old }
        requires staying { IsStaying asked }
        ensures well { IsWellOpened self.new }
        ensures moves { MovesOpen self.old asked (raising.Open self.new) result }
    {
        match asked {
            Move::Lend => Upshot::Lent(self.raise.lend(alloc)),
            Move::LendIdle => Upshot::Open,
            Move::Keep(spare) => {
                self.raise.take_back(spare);
                Upshot::Done
            }
            Move::Miss(spare) => {
                let due = self.is_due(alloc);
                self.raise.take_back(spare);
                missed_if(due)
            }
            Move::Within { event, args, spare } => {
                self.raise.take_back(spare);
                self.within(event, args)
            }
            Move::Argument(index) => self.argument(alloc, index),
            Move::Given(index) => self.tell_given(index),
            Move::GivenBytes(index) => self.hand_given(alloc, index),
            Move::Decline => self.decline(),
            Move::Next | Move::Do | Move::Gave { .. } | Move::Abandon | Move::Forget => {
                Upshot::Done
            }
        }
    }
}
