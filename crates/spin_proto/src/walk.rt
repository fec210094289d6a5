//! The steps of a raise under way.

ghost use Rattle.std.specs.Prelude.{◌≡◌, ◌<◌, [], ◌∷◌, OnOk, IfOk, false};
ghost use Rattle.spin_proto.specs.Whole.{Plain, Queued, is_start};
ghost use Rattle.spin_proto.specs.Inner.Walks.{Gained, Spends};

use crate::deed::{JobCall, JobCalls};
use crate::reply::{MAX_RUNS, Step, Trace};
use spin_values::{Args, NoMemory, Sequence};
use std::alloc::Global;

// A raise upwards that is still to be done.
#[derive(Drop, Debug)]
pub(crate) struct Upward {
    pub(crate) event: u8,
    pub(crate) args: Args,
}

// The steps and the calls of jobs so far, and how many handlers may still start.
#[derive(Drop)]
pub(crate) struct Walk {
    pub(crate) trace: Trace,
    pub(crate) jobs: JobCalls,
    pub(crate) left: u16,
}

impl Walk {
    // No step so far.
    pub(crate) fn new(alloc: Global) -> Walk
        ensures trace { result.trace ≡ [] }
        ensures jobs { result.jobs ≡ [] }
        ensures left { result.left ≡ MAX_RUNS }
    {
        Walk {
            trace: Sequence::new(alloc),
            jobs: Sequence::new(alloc),
            left: MAX_RUNS,
        }
    }

    // Takes out what was noted before, so that no step is there. The lists keep their room.
    #[inline]
    pub(crate) fn restart(&mut self)
        ensures trace { self.new.trace ≡ [] }
        ensures jobs { self.new.jobs ≡ [] }
        ensures left { self.new.left ≡ MAX_RUNS }
    {
        self.trace.clear();
        self.jobs.clear();
        self.left = MAX_RUNS;
    }

    // Adds a step that starts nothing.
    #[inline]
    pub(crate) fn note(&mut self, step: Step) -> Result<(), NoMemory>
        requires { is_start (Plain step) ≡ false }
        ensures { OnOk result (Gained (Plain step ∷ []) self.old self.new) }
    {
        self.trace.push(step)
    }

    // Starts a handler. False where none may start.
    #[inline]
    pub(crate) fn start(&mut self, event: u8, number: u16) -> Result<bool, NoMemory>
        ensures { IfOk result
            (λ on. Spends on (Plain (Step.Run event number) ∷ []) self.old self.new) }
    {
        if self.left == 0 {
            return Ok(false);
        }
        self.left -= 1;
        self.trace.push(Step::Run { event, number })?;
        Ok(true)
    }

    // Leaves a job, which counts as a handler that starts. False where none may start.
    pub(crate) fn queue(&mut self, event: u8, number: u16, args: Args) -> Result<bool, NoMemory>
        ensures { IfOk result (λ on. Spends on (Queued event number args ∷ []) self.old self.new) }
    {
        if self.left == 0 {
            return Ok(false);
        }
        self.left -= 1;
        self.trace.push(Step::Job { event, number })?;
        self.jobs.push(JobCall::Binding {
            event,
            number,
            args,
        })?;
        Ok(true)
    }
}
