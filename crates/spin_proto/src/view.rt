//! Replies that are lent.

ghost use Rattle.std.specs.Prelude.{◌≡◌};
ghost use Rattle.spin_proto.specs.Parts.{trace_in};
ghost use Rattle.spin_proto.specs.Replies.{calls_left};

use crate::deed::JobCall;
use crate::reply::{Reply, Step};
use spin_raise::Answer;
use std::marker::Model;
use std::slice;

/// A reply that is lent, by its owner or by a [`ReplyBuffer`](crate::ReplyBuffer). Contracts see the reply.
#[derive(Drop, Debug)]
pub struct ReplyView<'a> {
    /// The answer of a deed that was done and is lent in parts, or the reply as it stands.
    pub ending: Result<Answer, &'a Reply>,
    /// All steps of a deed that is lent in parts.
    pub trace: &'a [Step],
    /// The call of the job of each [`Step::Job`] among them, in order.
    pub jobs: &'a [JobCall],
}

impl<'a> Model for ReplyView<'a> {
    ghost use Rattle.spin_proto.specs.declared.reply.Reply.{Reply};
    ghost use Rattle.spin_proto.specs.Views.{reply_of_parts};

    ghost Value = { Reply };

    ghost view = { λ v. reply_of_parts (λ r. r.now) v.ending v.trace.now v.jobs.now };
}

impl Reply {
    /// The reply, lent.
    #[inline]
    pub fn view(&self) -> ReplyView<'_>
        ensures { result ≡ self.now }
    {
        ReplyView {
            ending: Err(self),
            trace: &[],
            jobs: &[],
        }
    }
}

// The calls that a reply leaves to jobs.
#[inline]
fn calls_in(reply: &Reply) -> &[JobCall]
    ensures { result.now ≡ calls_left reply.now }
{
    match reply {
        Reply::Ran { jobs, .. } => jobs.as_slice(),
        Reply::Queued(call) => slice::from_ref(call),
        Reply::UnknownEvent | Reply::WrongArgs | Reply::Spent => &[],
    }
}

impl<'a> ReplyView<'a> {
    /// The steps, of which there are none where the reply isn't [`Reply::Ran`].
    #[inline]
    pub fn trace(&self) -> &'a [Step]
        ensures { result.now ≡ trace_in self.now }
    {
        match self.ending {
            Ok(_) => self.trace,
            Err(reply) => reply.trace(),
        }
    }

    /// The calls that it leaves to jobs: those of its steps, or the one of a deed that is left to a job.
    #[inline]
    pub fn calls(&self) -> &'a [JobCall]
        ensures { result.now ≡ calls_left self.now }
    {
        match self.ending {
            Ok(_) => self.jobs,
            Err(reply) => calls_in(reply),
        }
    }
}
