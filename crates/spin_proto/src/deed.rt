//! What is left to jobs.

ghost use Rattle.std.specs.Prelude.{◌≡◌, IfOk};

use spin_table::Version;
use spin_values::{Args, NoMemory, Sequence};
use std::sync::Arc;

/// What a job is to do.
#[derive(PartialEq, Drop, Debug)]
pub enum JobCall {
    /// To raise an event.
    Whole {
        /// The number of the event.
        event: u8,
        /// Its arguments.
        args: Args,
    },
    /// To run the handler of a binding, with no guard tested again.
    Binding {
        /// The number of the event.
        event: u8,
        /// The number of the binding.
        number: u16,
        /// The arguments, as they stood when the binding was reached.
        args: Args,
    },
}

impl JobCall {
    /// An equal call.
    pub fn copy(&self) -> Result<JobCall, NoMemory>
        ensures { IfOk result (λ copy. copy ≡ self.now) }
    {
        match self {
            JobCall::Whole { event, args } => Ok(JobCall::Whole {
                event: *event,
                args: args.copy()?,
            }),
            JobCall::Binding {
                event,
                number,
                args,
            } => Ok(JobCall::Binding {
                event: *event,
                number: *number,
                args: args.copy()?,
            }),
        }
    }
}

/// Calls of jobs, in the order in which they were left.
pub type JobCalls = Sequence<JobCall>;

/// A job: a call, the version on which it is done whenever that is, and which entry of which lane left it.
#[derive(Drop)]
pub struct Job {
    /// The version of the entry.
    pub version: Arc<Version>,
    /// What is to be done.
    pub call: JobCall,
    /// The place of the version.
    pub place: u16,
    /// The lane whose entry left it.
    pub lane: u8,
    /// The line of the entry.
    pub line: u32,
    /// The part of the entry.
    pub part: u32,
    /// Which of the entry's jobs it is, counted from 0.
    pub index: u32,
}

/// Jobs in order.
pub type Jobs = Sequence<Job>;
