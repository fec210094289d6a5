//! What a deed comes to, into a buffer that is lent.

ghost use Rattle.std.specs.Prelude.{◌≡◌, ◌<◌, [], length, OnOk, OnErr};
ghost use Rattle.std.specs.List.{All};
ghost use Rattle.spin_table.specs.SetupOf.{data_of};
ghost use Rattle.spin_table.specs.Soundness.{IsSoundVersion};
ghost use Rattle.spin_raise.specs.declared.bound.Runner.TheVariants as runner;
ghost use Rattle.spin_proto.specs.declared.reply.TheConstants.{MAX_RUNS};
ghost use Rattle.spin_proto.specs.declared.reply.Reply.TheVariants as reply;
ghost use Rattle.spin_proto.specs.Replies.{units_in, IsDeedReply, IsFitDeed, BelongsTo, calls_left};
ghost use Rattle.spin_proto.specs.Parts.{answer_in, trace_in, jobs_in};
ghost use Rattle.spin_proto.specs.Whole.{raised, reply_of};
ghost use Rattle.spin_proto.specs.Inner.Walks.{OnBounds};

use crate::deed::JobCall;
use crate::deed_reply::{path, refusal};
use crate::reply::{Reply, Step};
use crate::rising::raise_event;
use crate::view::ReplyView;
use crate::walk::Walk;
use spin_code::Sincere;
use spin_objects::{Catalogue, Outcome};
use spin_raise::{Answer, Progress, Runner};
use spin_table::{Setup, Version};
use spin_values::{Args, NoMemory, Octets, Value};
use spin_word::Deed;
use std::alloc::Global;
use std::marker::Model;
use std::mem;

/// A reply, with the room that the next one takes over. Contracts see the reply.
#[derive(Drop)]
pub struct ReplyBuffer {
    // The answer of a deed that was done, whose steps are those of the walk, or another reply.
    ending: Result<Answer, Reply>,
    walk: Walk,
    // What one handler gives, and a raise under way: what they hold counts for nothing.
    given: Outcome,
    progress: Progress,
}

impl Model for ReplyBuffer {
    ghost use Rattle.spin_proto.specs.declared.reply.Reply.{Reply};
    ghost use Rattle.spin_proto.specs.Views.{reply_of_parts};

    ghost Value = { Reply };

    ghost view = { λ b. reply_of_parts (λ r. r) b.ending b.walk.trace b.walk.jobs };
}

impl ReplyBuffer {
    /// A buffer with [`Reply::Spent`], which takes no memory until a deed is done into it.
    pub fn new(alloc: Global) -> ReplyBuffer
        ensures { result ≡ reply.Spent }
    {
        ReplyBuffer {
            ending: Err(Reply::Spent),
            walk: Walk::new(alloc),
            given: Outcome::new(alloc),
            progress: Progress::start(Args::new(alloc)),
        }
    }

    /// The answer; `None` exactly where the reply isn't [`Reply::Ran`].
    pub fn answer(&self) -> Option<Answer>
        ensures { result ≡ answer_in self.now }
    {
        match &self.ending {
            Ok(answer) => Some(*answer),
            Err(reply) => reply.answer(),
        }
    }

    /// The steps, of which there are none where the reply isn't [`Reply::Ran`].
    pub fn trace(&self) -> &[Step]
        ensures { result.now ≡ trace_in self.now }
    {
        match &self.ending {
            Ok(_) => self.walk.trace.as_slice(),
            Err(reply) => reply.trace(),
        }
    }

    /// The calls of jobs, of which there are none where the reply isn't [`Reply::Ran`].
    pub fn jobs(&self) -> &[JobCall]
        ensures { result.now ≡ jobs_in self.now }
    {
        match &self.ending {
            Ok(_) => self.walk.jobs.as_slice(),
            Err(reply) => reply.jobs(),
        }
    }

    /// The reply, lent.
    #[inline]
    pub fn view(&self) -> ReplyView<'_>
        ensures { result ≡ self.now }
    {
        match &self.ending {
            Ok(answer) => ReplyView {
                ending: Ok(*answer),
                trace: self.walk.trace.as_slice(),
                jobs: self.walk.jobs.as_slice(),
            },
            Err(reply) => reply.view(),
        }
    }

    /// The reply, which takes no memory.
    pub fn into_reply(self) -> Reply
        ensures { result ≡ self }
    {
        let ReplyBuffer { ending, walk, .. } = self;
        let Walk { trace, jobs, .. } = walk;
        match ending {
            Ok(answer) => Reply::Ran {
                answer,
                trace,
                jobs,
            },
            Err(reply) => reply,
        }
    }
}

// Takes out the last argument, and answers its room if it is bytes.
#[inline]
fn room_in(alloc: Global, args: &mut Args) -> Octets
    ensures { result ≡ [] }
{
    match args.pop() {
        Some(Value::Bytes(mut bytes)) => {
            bytes.clear();
            bytes
        }
        _ => Octets::new(alloc),
    }
}

// Starts a raise on equal arguments, in the room of those that are there.
#[inline]
fn start_over(alloc: Global, progress: &mut Progress, args: &Args) -> Result<(), NoMemory>
    ensures from { OnOk result (progress.new.from ≡ 0) }
    ensures answer { OnOk result (progress.new.answer ≡ Answer.NoHandler) }
    ensures args { OnOk result (progress.new.args ≡ args.now) }
{
    let mut room = room_in(alloc, &mut progress.args);
    progress.args.clear();
    for value in args.as_slice() {
        match value {
            Value::Word(word) => progress.args.push(Value::Word(*word))?,
            Value::Bytes(bytes) => {
                let mut copy = mem::replace(&mut room, Octets::new(alloc));
                copy.extend_from_slice(bytes)?;
                progress.args.push(Value::Bytes(copy))?;
            }
        }
    }
    progress.from = 0;
    progress.answer = Answer::NoHandler;
    Ok(())
}

// Does a raise of an event that is there, into the buffer.
#[inline]
fn raise_into(
    alloc: Global,
    version: &Version,
    setup: &Setup,
    event: u8,
    args: &Args,
    buffer: &mut ReplyBuffer,
) -> Result<(), NoMemory>
    requires sound { IsSoundVersion (data_of setup.now) version.now }
    requires sincere { ⟦<Catalogue as Sincere>⟧.sincere setup.now.catalogue }
    requires there { event < length version.now.state.events }
    ensures { OnOk result (OnBounds (data_of setup.now) version.now.state (λ bounds.
        let all = raised runner.Raiser (units_in (data_of setup.now)) bounds 0 event args.now in
        buffer.new ≡ reply_of MAX_RUNS all)) }
{
    start_over(alloc, &mut buffer.progress, args)?;
    buffer.walk.restart();
    let (progress, given, walk) = (&mut buffer.progress, &mut buffer.given, &mut buffer.walk);
    let runner = Runner::Raiser;
    match raise_event(alloc, version, setup, runner, event, progress, given, walk)? {
        None => {
            buffer.ending = Err(Reply::Spent);
            Ok(())
        }
        Some(answer) => {
            buffer.ending = Ok(answer);
            Ok(())
        }
    }
}

/// What a deed comes to on this version, put into a buffer: the same as [`path`] answers. After want of memory, which as
/// there is told only of a deed whose event is there and whose arguments fit it, nothing is known of the buffer's reply.
///
/// It costs what `path` does, less the memory: a raise takes none where the buffer's lists have room for its words, for
/// its steps, and for what one handler gives. Bytes, raises upwards and jobs take some.
pub fn path_into(
    alloc: Global,
    version: &Version,
    setup: &Setup,
    deed: &Deed,
    buffer: &mut ReplyBuffer,
) -> Result<(), NoMemory>
    requires sound { IsSoundVersion (data_of setup.now) version.now }
    requires sincere { ⟦<Catalogue as Sincere>⟧.sincere setup.now.catalogue }
    ensures reply { OnOk result (IsDeedReply (data_of setup.now) version.now.state deed.now buffer.new) }
    ensures calls { OnOk result (All (BelongsTo version.now.state) (calls_left buffer.new)) }
    ensures err { OnErr result (IsFitDeed (data_of setup.now) deed.now) }
{
    match deed {
        Deed::Raise { event, args } => match refusal(setup, *event, args) {
            Some(refused) => {
                buffer.ending = Err(refused);
                Ok(())
            }
            None => raise_into(alloc, version, setup, *event, args, buffer),
        },
        Deed::Later { .. } => {
            buffer.ending = Err(path(alloc, version, setup, deed)?);
            Ok(())
        }
    }
}
