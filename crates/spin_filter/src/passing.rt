//! A record, passed: its raise, its jobs, and their sends.

ghost use Rattle.std.specs.Prelude.{◌≡◌, ◌≤◌, ◌∷◌, [], List, length, All, Any, IfOk, MatchResult};
ghost use Rattle.spin_values.specs.declared.values.Value.TheVariants as value;
ghost use Rattle.spin_endpoint.specs.declared.ends.TheConstants.{MAX_ENDPOINTS};
ghost use Rattle.spin_table.specs.SetupOf.{data_of};
ghost use Rattle.spin_table.specs.Soundness.{IsSoundVersion};
ghost use Rattle.spin_proto.specs.declared.reply.Reply.{Reply};
ghost use Rattle.spin_proto.specs.Parts.{trace_in};
ghost use Rattle.spin_proto.specs.Replies.{BelongsTo, IsJobReply};
ghost use Rattle.spin_frames.specs.Written.{with_waiting};
ghost use Rattle.spin_filter.specs.Counting.{joined, just_job, just_steps, job_steps, happened_in_jobs, happened_at};
ghost use Rattle.spin_filter.specs.Passing.{Passed, AreJobReplies, IsPassed};
ghost use Rattle.spin_filter.specs.Inner.Sends.{IsOf};
ghost use Rattle.spin_filter.specs.Sending.{outlets_at, IsDone, StopsSending};
ghost use Rattle.spin_filter.specs.Stops.{IsSentByJob, IsSentAt};

use crate::counts::outcome_of;
use crate::outlets::Outlets;
use crate::sending::{do_job_steps, do_steps};
use crate::stop::Stop;
use crate::taken::Taken;
use spin_code::Sincere;
use spin_endpoint::{Ends, EndsSeen};
use spin_objects::Catalogue;
use spin_outside::Sink;
use spin_proto::{Deed, JobCall, ReplyBuffer, job_path, path_into};
use spin_table::{Setup, Version};
use spin_values::{Args, NoMemory, Octets, Text, Value};
use std::alloc::Global;
use std::mem;

// What records are passed by: the script, and the state that its commands left.
#[derive(Drop)]
pub(crate) struct Passing<'a> {
    pub(crate) alloc: Global,
    pub(crate) setup: &'a Setup,
    pub(crate) version: &'a Version,
    // The names of the script's endpoints, by number.
    pub(crate) names: &'a [Text],
    // The number of the endpoint that writes a capture, if one does.
    pub(crate) capture: Option<u8>,
    // The events of a round, one for each of its records.
    pub(crate) round: &'a [u8],
}

// The room of one raise after another.
#[derive(Drop)]
pub(crate) struct Room {
    args: Args,
    buffer: ReplyBuffer,
}

impl Room {
    // Room that grows as it is needed.
    pub(crate) fn new(alloc: Global) -> Room {
        Room {
            args: Args::new(alloc),
            buffer: ReplyBuffer::new(alloc),
        }
    }
}

// The arguments of a raise with these bytes, in the room of those of the last one.
fn refilled(alloc: Global, args: Args, frame: &[u8]) -> Result<Args, NoMemory>
    ensures { IfOk result (λ refilled. refilled ≡ value.Bytes frame.now ∷ []) }
{
    let mut args = args;
    let mut bytes = match args.pop() {
        Some(Value::Bytes(bytes)) => bytes,
        _ => Octets::new(alloc),
    };
    args.clear();
    bytes.clear();
    bytes.extend_from_slice(frame)?;
    args.push(Value::Bytes(bytes))?;
    Ok(args)
}

// Does a job of a raise.
fn do_job<W: Sink + Drop>(
    passing: &Passing<'_>,
    taken: &Taken<'_>,
    call: &JobCall,
    outlets: &mut Outlets<W>,
) -> Result<(), Stop>
    requires sincere { ⟦<Catalogue as Sincere>⟧.sincere passing.now.setup.now.catalogue }
    requires sound { IsSoundVersion (data_of passing.now.setup.now) passing.now.version.now }
    requires belongs { BelongsTo passing.now.version.now.state call.now }
    requires few { length passing.now.names.now ≤ MAX_ENDPOINTS }
    ensures { let before = outlets_at (⟦<Ends as EndsSeen>⟧.all outlets.old.ends)
        (with_waiting (W.seen outlets.old.file.sink) outlets.old.file.waiting) outlets.old.counts in
        let after = outlets_at (⟦<Ends as EndsSeen>⟧.all outlets.new.ends)
        (with_waiting (W.seen outlets.new.file.sink) outlets.new.file.waiting) outlets.new.counts in
        MatchResult result
        (λ _. (reply : Reply) × IsJobReply (data_of passing.now.setup.now) passing.now.version.now.state call.now reply
        × IsDone passing.now.names.now passing.now.capture
        (joined just_job (just_steps taken.now (job_steps (trace_in reply))))
        before after)
        (StopsSending passing.now.names.now passing.now.capture
        (IsOf taken.now (λ s. IsSentByJob (data_of passing.now.setup.now) passing.now.version.now.state s call.now))
        before after) }
{
    let reply = job_path(passing.alloc, passing.version, passing.setup, call)?;
    outlets.counts.note_job();
    do_job_steps(passing, taken, reply.trace(), outlets)?;
    Ok(())
}

// Does the jobs of a raise, one after another.
fn do_jobs<W: Sink + Drop>(
    passing: &Passing<'_>,
    taken: &Taken<'_>,
    calls: &[JobCall],
    outlets: &mut Outlets<W>,
) -> Result<(), Stop>
    requires sincere { ⟦<Catalogue as Sincere>⟧.sincere passing.now.setup.now.catalogue }
    requires sound { IsSoundVersion (data_of passing.now.setup.now) passing.now.version.now }
    requires belong { All (BelongsTo passing.now.version.now.state) calls.now }
    requires few { length passing.now.names.now ≤ MAX_ENDPOINTS }
    ensures { let before = outlets_at (⟦<Ends as EndsSeen>⟧.all outlets.old.ends)
        (with_waiting (W.seen outlets.old.file.sink) outlets.old.file.waiting) outlets.old.counts in
        let after = outlets_at (⟦<Ends as EndsSeen>⟧.all outlets.new.ends)
        (with_waiting (W.seen outlets.new.file.sink) outlets.new.file.waiting) outlets.new.counts in
        MatchResult result
        (λ _. (replies : List Reply)
        × AreJobReplies (data_of passing.now.setup.now) passing.now.version.now.state calls.now replies
        × IsDone passing.now.names.now passing.now.capture (happened_in_jobs taken.now replies)
        before after)
        (StopsSending passing.now.names.now passing.now.capture
        (IsOf taken.now (λ s.
        Any (IsSentByJob (data_of passing.now.setup.now) passing.now.version.now.state s) calls.now))
        before after) }
{
    for call in calls {
        do_job(passing, taken, call, outlets)?;
    }
    Ok(())
}

// Raises the event with the record's frame, and does the jobs that this leaves.
pub(crate) fn pass_record<W: Sink + Drop>(
    passing: &Passing<'_>,
    taken: &Taken<'_>,
    event: u8,
    room: &mut Room,
    outlets: &mut Outlets<W>,
) -> Result<(), Stop>
    requires sincere { ⟦<Catalogue as Sincere>⟧.sincere passing.now.setup.now.catalogue }
    requires sound { IsSoundVersion (data_of passing.now.setup.now) passing.now.version.now }
    requires few { length passing.now.names.now ≤ MAX_ENDPOINTS }
    ensures { let before = outlets_at (⟦<Ends as EndsSeen>⟧.all outlets.old.ends)
        (with_waiting (W.seen outlets.old.file.sink) outlets.old.file.waiting) outlets.old.counts in
        let after = outlets_at (⟦<Ends as EndsSeen>⟧.all outlets.new.ends)
        (with_waiting (W.seen outlets.new.file.sink) outlets.new.file.waiting) outlets.new.counts in
        MatchResult result
        (λ _. (passed : Passed) × (passed.taken ≡ taken.now)
        × IsPassed (data_of passing.now.setup.now) passing.now.version.now.state event passed
        × IsDone passing.now.names.now passing.now.capture (happened_at passed)
        before after)
        (StopsSending passing.now.names.now passing.now.capture
        (IsOf taken.now (IsSentAt (data_of passing.now.setup.now) passing.now.version.now.state event))
        before after) }
{
    let args = mem::replace(&mut room.args, Args::new(passing.alloc));
    let args = refilled(passing.alloc, args, taken.frame())?;
    let deed = Deed::Raise { event, args };
    path_into(
        passing.alloc,
        passing.version,
        passing.setup,
        &deed,
        &mut room.buffer,
    )?;
    let view = room.buffer.view();
    outlets.counts.note_outcome(outcome_of(&view));
    let (steps, calls) = (view.trace(), view.calls());
    do_steps(passing, taken, steps, outlets)?;
    do_jobs(passing, taken, calls, outlets)?;
    match deed {
        Deed::Raise { args, .. } | Deed::Later { args, .. } => room.args = args,
    }
    Ok(())
}
