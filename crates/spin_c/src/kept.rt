//! What the last raise or command of a handle left, in room that the next reply takes over.

ghost use Rattle.std.specs.Prelude.{◌≡◌, None, Option, Some, IfOk, OnErr, map};
ghost use Rattle.spin_values.specs.declared.values.Value.TheVariants as value;
ghost use Rattle.spin_word.specs.declared.work.Deed.TheVariants as deed;
ghost use Rattle.spin_log.specs.Pens.{IsSamePen};
ghost use Rattle.spin_table.specs.SetupOf.{data_of};
ghost use Rattle.spin_proto.specs.declared.reply.Reply.{Reply as ReplyValue};
ghost use Rattle.spin_proto.specs.Parts.{trace_in};
ghost use Rattle.spin_proto.specs.Replies.{calls_left};
ghost use Rattle.spin_seat.specs.Seats.{IsSeat, version_of};
ghost use Rattle.spin_seat.specs.Calls.{AddsAtMostAPin};
ghost use Rattle.std.specs.Option.{option_copied, option_map};
ghost use Rattle.std.specs.Arc.{arc_value};
ghost use Rattle.spin_table.specs.States.{VersionValue};
ghost use Rattle.spin_c.specs.Jobs.{IsWellLeft};
ghost use Rattle.spin_c.specs.Kept.{cycle_left, job_left, left_in, pinned_for, replied, reply_left};
ghost use Rattle.spin_c.specs.KeptRaises.{IsKeptRaise};
ghost use Rattle.spin_c.specs.Trails.{told_of};

use crate::ask::Told;
use crate::trail::{answer_told, reply_told};
use spin_code::Sincere;
use spin_objects::Catalogue;
use spin_proto::{JobCall, Reply, ReplyBuffer, Step};
use spin_seat::{Hub, Seat};
use spin_table::Version;
use spin_values::{Args, NoMemory, Numbers, Value};
use spin_word::Deed;
use std::alloc::Global;
use std::marker::Model;
use std::mem;
use std::sync::Arc;

// What is left, and where it stands.
#[derive(Drop)]
pub(crate) enum Last {
    // Nothing.
    None,
    // A reply, in the buffer.
    Buffer,
    // A reply, which is here, and has no steps.
    Other(Reply),
    // The cycle for which a command was refused.
    Cycle(Numbers),
}

/// What the last raise or command left: the reply to a raise, where it leaves jobs the version on which they are done, and
/// the reply to the last of them that was done; or the cycle for which a command was refused. Contracts see that, and
/// nothing of the room for arguments.
#[derive(Drop)]
pub struct Kept {
    pub(crate) buffer: ReplyBuffer,
    pub(crate) last: Last,
    pub(crate) pinned: Option<Arc<Version>>,
    pub(crate) job: Option<Reply>,
    pub(crate) args: Args,
}

impl Model for Kept {
    ghost use Rattle.std.specs.Prelude.{Option};
    ghost use Rattle.std.specs.Arc.{arc_value};
    ghost use Rattle.std.specs.Coded.{codes};
    ghost use Rattle.std.specs.Option.{option_map};
    ghost use Rattle.spin_code.specs.contracts.test.Test as test;
    ghost use Rattle.spin_c.specs.Kept.{Left, left_in};

    ghost Value = { Option Left };

    ghost coded = { Prim.hlevel (codes, test.the_row.coded) };

    ghost view = { λ k. left_in k.last k.buffer (option_map (λ v. arc_value v) k.pinned) k.job };
}

// Keeps the reply that stands in a buffer, and tells it.
fn keep(alloc: Global, buffer: &mut ReplyBuffer) -> (Last, Told)
    ensures kept { (pinned : Option VersionValue) → (job : Option ReplyValue)
        → left_in result.0 buffer.new pinned job ≡ Some (replied record { reply = buffer.old; pinned = pinned; job = job }) }
    ensures told { result.1 ≡ told_of buffer.old }
{
    let steps = buffer.trace().len() as u64;
    match buffer.answer() {
        Some(answer) => (Last::Buffer, answer_told(answer, steps)),
        None => {
            let reply = mem::replace(buffer, ReplyBuffer::new(alloc)).into_reply();
            let told = reply_told(&reply);
            (Last::Other(reply), told)
        }
    }
}

// The version of the seat, where these calls are left to jobs that are done on it.
fn pinned(seat: &Seat, calls: &[JobCall]) -> Result<Option<Arc<Version>>, NoMemory>
    ensures { IfOk result (λ pinned. option_map (λ v. arc_value v) pinned ≡ pinned_for calls.now (version_of seat.now)) }
{
    if calls.is_empty() {
        return Ok(None);
    }
    Ok(Some(seat.version()?))
}

// These words as arguments, in the room of a list.
fn args_in(room: Args, words: &[u64]) -> Result<Args, NoMemory>
    ensures { IfOk result (λ args. args ≡ map value.Word words.now) }
{
    let mut args = room;
    args.clear();
    args.reserve(words.len())?;
    for word in words {
        args.push(Value::Word(*word))?;
    }
    Ok(args)
}

// The arguments of a deed.
fn args_of(deed: Deed) -> Args {
    match deed {
        Deed::Raise { args, .. } => args,
        Deed::Later { args, .. } => args,
    }
}

impl Kept {
    // Nothing. It takes no memory until a reply is kept.
    pub(crate) fn new(alloc: Global) -> Kept
        ensures { result ≡ None }
    {
        Kept {
            buffer: ReplyBuffer::new(alloc),
            last: Last::None,
            pinned: None,
            job: None,
            args: Args::new(alloc),
        }
    }

    // Lets go of what is left.
    pub(crate) fn forget(&mut self)
        ensures { self.new ≡ None }
    {
        self.last = Last::None;
        self.pinned = None;
        self.job = None;
    }

    // The steps of the reply, where one is kept.
    pub(crate) fn steps(&self) -> Option<&[Step]>
        ensures { option_copied result ≡ option_map trace_in (reply_left self.now) }
    {
        match &self.last {
            Last::None | Last::Cycle(_) => None,
            Last::Buffer => Some(self.buffer.trace()),
            Last::Other(reply) => Some(reply.trace()),
        }
    }

    // The steps of the reply to its last job, where one was done.
    pub(crate) fn job_steps(&self) -> Option<&[Step]>
        ensures { option_copied result ≡ option_map trace_in (job_left self.now) }
    {
        match &self.last {
            Last::None | Last::Cycle(_) => None,
            Last::Buffer | Last::Other(_) => match &self.job {
                None => None,
                Some(reply) => Some(reply.trace()),
            },
        }
    }

    // The calls that the reply leaves to jobs, where one is kept.
    pub(crate) fn calls(&self) -> Option<&[JobCall]>
        ensures { option_copied result ≡ option_map calls_left (reply_left self.now) }
    {
        match &self.last {
            Last::None | Last::Cycle(_) => None,
            Last::Buffer => Some(self.buffer.view().calls()),
            Last::Other(reply) => Some(reply.view().calls()),
        }
    }

    // The bindings of the cycle for which the last command was refused; none where it was for none.
    pub(crate) fn cycle(&self) -> &[u16]
        ensures { result.now ≡ cycle_left self.now }
    {
        match &self.last {
            Last::Cycle(cycle) => cycle.as_slice(),
            Last::None | Last::Buffer | Last::Other(_) => &[],
        }
    }

    // Does the deed on the seat, keeps its reply, and tells its place and the reply.
    pub(crate) fn raise(
        &mut self,
        alloc: Global,
        hub: &Hub,
        seat: &mut Seat,
        deed: &Deed,
    ) -> Result<(u16, Told), NoMemory>
        requires sincere { ⟦<Catalogue as Sincere>⟧.sincere hub.now.setup.catalogue }
        requires log { seat.old.pen.log ≡ hub.now.log.id }
        requires seat { IsSeat (data_of hub.now.setup) seat.old }
        ensures seat { IsSeat (data_of hub.now.setup) seat.new }
        ensures first { seat.new.base ≡ seat.old.base }
        ensures same { IsSamePen seat.old.pen seat.new.pen }
        ensures well { IsWellLeft (data_of hub.now.setup) self.new }
        ensures answer { IfOk result
            (λ told. IsKeptRaise (data_of hub.now.setup) seat.old seat.new deed.now told self.new) }
        ensures err { OnErr result (AddsAtMostAPin seat.old.pen seat.new.pen × (self.new ≡ None)) }
    {
        self.forget();
        let place = seat.raise_into(alloc, hub, deed, &mut self.buffer)?;
        self.pinned = pinned(seat, self.buffer.view().calls())?;
        let (last, told) = keep(alloc, &mut self.buffer);
        self.last = last;
        self.job = None;
        Ok((place, told))
    }

    // Raises an event with these words on the seat, as `raise` does, in room that the last such raise left for them.
    pub(crate) fn raise_words(
        &mut self,
        alloc: Global,
        hub: &Hub,
        seat: &mut Seat,
        event: u8,
        words: &[u64],
    ) -> Result<(u16, Told), NoMemory>
        requires sincere { ⟦<Catalogue as Sincere>⟧.sincere hub.now.setup.catalogue }
        requires log { seat.old.pen.log ≡ hub.now.log.id }
        requires seat { IsSeat (data_of hub.now.setup) seat.old }
        ensures seat { IsSeat (data_of hub.now.setup) seat.new }
        ensures first { seat.new.base ≡ seat.old.base }
        ensures same { IsSamePen seat.old.pen seat.new.pen }
        ensures well { IsWellLeft (data_of hub.now.setup) self.new }
        ensures answer { let did = deed.Raise event (map value.Word words.now) in
            IfOk result (λ told. IsKeptRaise (data_of hub.now.setup) seat.old seat.new did told self.new) }
        ensures err { OnErr result (AddsAtMostAPin seat.old.pen seat.new.pen × (self.new ≡ None)) }
    {
        let room = mem::replace(&mut self.args, Args::new(alloc));
        let Ok(args) = args_in(room, words) else {
            self.forget();
            return Err(NoMemory);
        };
        let deed = Deed::Raise { event, args };
        let told = self.raise(alloc, hub, seat, &deed);
        self.args = args_of(deed);
        told
    }
}
