//! What a deed or a job comes to.

ghost use Rattle.std.specs.Prelude.{◌≡◌};
ghost use Rattle.spin_proto.specs.Parts.{answer_in, trace_in, jobs_in};

use crate::deed::{JobCall, JobCalls};
use spin_headers::HeaderFault;
use spin_raise::Answer;
use spin_values::{Octets, Sequence};

/// How many handlers a deed or a job may start, a job that it leaves counting as one.
pub const MAX_RUNS: u16 = 4096;

/// One step of a raise with its raises upwards.
#[derive(PartialEq, Drop, Debug)]
pub enum Step {
    /// The handler of a binding runs, 0 being the event's default. The steps of its act follow.
    Run {
        /// The event that is raised.
        event: u8,
        /// The number of the binding.
        number: u16,
    },
    /// The act gives this result. The last one is the act's.
    Result(u64),
    /// The act sends bytes.
    Send {
        /// The number of the endpoint.
        endpoint: u8,
        /// What is sent.
        bytes: Octets,
    },
    /// A raise upwards of this event begins. Its own steps follow.
    Up(u8),
    /// The last raise upwards that began and hasn't ended ends with this answer.
    Back(Answer),
    /// The act drops a packet, since its headers have this fault.
    Dropped(HeaderFault),
    /// The handler of a binding is left to a job.
    Job {
        /// The event that is raised.
        event: u8,
        /// The number of the binding.
        number: u16,
    },
}

/// Steps in the order in which they come.
pub type Trace = Sequence<Step>;

/// What a deed or a job comes to.
#[derive(PartialEq, Drop, Debug)]
pub enum Reply {
    /// It was done.
    Ran {
        /// What the raiser is answered.
        answer: Answer,
        /// All its steps.
        trace: Trace,
        /// The call of the job of each [`Step::Job`], in order.
        jobs: JobCalls,
    },
    /// It is left to a job with this call.
    Queued(JobCall),
    /// The event isn't there.
    UnknownEvent,
    /// The arguments haven't the number and kinds of the event's parameters.
    WrongArgs,
    /// More than [`MAX_RUNS`] handlers would start. Nothing of what was done is left.
    Spent,
}

impl Reply {
    /// The answer; `None` exactly where it isn't [`Reply::Ran`].
    pub fn answer(&self) -> Option<Answer>
        ensures { result ≡ answer_in self.now }
    {
        match self {
            Reply::Ran { answer, .. } => Some(*answer),
            _ => None,
        }
    }

    /// The steps, of which there are none where it isn't [`Reply::Ran`].
    pub fn trace(&self) -> &[Step]
        ensures { result.now ≡ trace_in self.now }
    {
        match self {
            Reply::Ran { trace, .. } => trace.as_slice(),
            _ => &[],
        }
    }

    /// The calls of jobs, of which there are none where it isn't [`Reply::Ran`].
    pub fn jobs(&self) -> &[JobCall]
        ensures { result.now ≡ jobs_in self.now }
    {
        match self {
            Reply::Ran { jobs, .. } => jobs.as_slice(),
            _ => &[],
        }
    }
}
