//! An event as a raise finds it, and who raises it.

ghost use Rattle.std.specs.Prelude.{◌≡◌};
ghost use Rattle.spin_raise.specs.Firing as specs;

use spin_code::Merge;
use spin_plan::Plan;

/// An event as a raise finds it.
#[derive(Clone, Copy)]
pub struct Bound<'a> {
    /// Its bindings in the order in which they run.
    pub plan: &'a Plan,
    /// How their results become one.
    pub merge: &'a Merge,
    /// The handler that runs where no binding does, 0 being none.
    pub default: u16,
}

/// Who does a raise.
#[derive(Clone, Copy, PartialEq, Eq, Debug)]
pub enum Runner {
    /// Its raiser: asynchronous bindings are left to jobs.
    Raiser,
    /// A job: asynchronous bindings run in place, and their results aren't merged.
    Job,
}

impl Runner {
    /// A job where the raise is one.
    pub fn of(apart: bool) -> Runner
        ensures { result ≡ specs.runner_of apart }
    {
        if apart { Runner::Job } else { Runner::Raiser }
    }

    // Whether it leaves asynchronous bindings to jobs.
    pub(crate) fn leaves_jobs(self) -> bool
        ensures { result ≡ specs.leaves_jobs self }
    {
        matches!(self, Runner::Raiser)
    }
}
