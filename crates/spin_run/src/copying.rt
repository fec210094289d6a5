//! Entries of their own, of those that are lent.

ghost use Rattle.std.specs.Prelude.{◌≡◌, ◌∷◌, [], IfOk, OnOk};
ghost use Rattle.spin_run.specs.Lanes.{kept_with};

use spin_proto::{JobCall, JobCalls, Reply, ReplyView, Step, Trace};
use spin_report::{Entries, Entry, EntryView, LentWhat, What, WhatView};
use spin_table::{Refusal, Verdicted};
use spin_values::{NoMemory, Numbers};
use std::alloc::Global;

// An equal step.
fn copied_step(step: &Step) -> Result<Step, NoMemory>
    ensures { IfOk result (λ copy. copy ≡ step.now) }
{
    match step {
        Step::Run { event, number } => Ok(Step::Run {
            event: *event,
            number: *number,
        }),
        Step::Result(value) => Ok(Step::Result(*value)),
        Step::Send { endpoint, bytes } => Ok(Step::Send {
            endpoint: *endpoint,
            bytes: bytes.copy()?,
        }),
        Step::Up(event) => Ok(Step::Up(*event)),
        Step::Back(answer) => Ok(Step::Back(*answer)),
        Step::Dropped(fault) => Ok(Step::Dropped(*fault)),
        Step::Job { event, number } => Ok(Step::Job {
            event: *event,
            number: *number,
        }),
    }
}

// Equal steps.
fn copied_steps(alloc: Global, steps: &[Step]) -> Result<Trace, NoMemory>
    ensures { IfOk result (λ copy. copy ≡ steps.now) }
{
    let mut trace = Trace::new(alloc);
    for step in steps {
        trace.push(copied_step(step)?)?;
    }
    Ok(trace)
}

// Equal calls.
fn copied_calls(alloc: Global, calls: &[JobCall]) -> Result<JobCalls, NoMemory>
    ensures { IfOk result (λ copy. copy ≡ calls.now) }
{
    let mut copies = JobCalls::new(alloc);
    for call in calls {
        copies.push(call.copy()?)?;
    }
    Ok(copies)
}

// An equal reply.
fn copied_whole(alloc: Global, reply: &Reply) -> Result<Reply, NoMemory>
    ensures { IfOk result (λ copy. copy ≡ reply.now) }
{
    match reply {
        Reply::Ran {
            answer,
            trace,
            jobs,
        } => Ok(Reply::Ran {
            answer: *answer,
            trace: copied_steps(alloc, trace.as_slice())?,
            jobs: copied_calls(alloc, jobs.as_slice())?,
        }),
        Reply::Queued(call) => Ok(Reply::Queued(call.copy()?)),
        Reply::UnknownEvent => Ok(Reply::UnknownEvent),
        Reply::WrongArgs => Ok(Reply::WrongArgs),
        Reply::Spent => Ok(Reply::Spent),
    }
}

// The reply that is lent.
fn copied_reply(alloc: Global, reply: &ReplyView) -> Result<Reply, NoMemory>
    ensures { IfOk result (λ copy. copy ≡ reply.now) }
{
    match reply.ending {
        Ok(answer) => Ok(Reply::Ran {
            answer,
            trace: copied_steps(alloc, reply.trace)?,
            jobs: copied_calls(alloc, reply.jobs)?,
        }),
        Err(whole) => copied_whole(alloc, whole),
    }
}

// An equal refusal.
fn copied_refusal(alloc: Global, refusal: &Refusal) -> Result<Refusal, NoMemory>
    ensures { IfOk result (λ copy. copy ≡ refusal.now) }
{
    match refusal {
        Refusal::UnknownEvent => Ok(Refusal::UnknownEvent),
        Refusal::UnknownModule => Ok(Refusal::UnknownModule),
        Refusal::UnknownHandler => Ok(Refusal::UnknownHandler),
        Refusal::UnknownGuard => Ok(Refusal::UnknownGuard),
        Refusal::UnknownBinding => Ok(Refusal::UnknownBinding),
        Refusal::WrongType => Ok(Refusal::WrongType),
        Refusal::Downward => Ok(Refusal::Downward),
        Refusal::WrongMode => Ok(Refusal::WrongMode),
        Refusal::Denied(rule) => Ok(Refusal::Denied(*rule)),
        Refusal::TooMany => Ok(Refusal::TooMany),
        Refusal::Conflict(cycle) => Ok(Refusal::Conflict(Numbers::from_slice(
            alloc,
            cycle.as_slice(),
        )?)),
        Refusal::ForcedMode(rule) => Ok(Refusal::ForcedMode(*rule)),
    }
}

// An equal verdict.
fn copied_verdict(alloc: Global, verdict: &Verdicted) -> Result<Verdicted, NoMemory>
    ensures { IfOk result (λ copy. copy ≡ verdict.now) }
{
    match verdict {
        Verdicted::Accepted => Ok(Verdicted::Accepted),
        Verdicted::Refused(refusal) => Ok(Verdicted::Refused(copied_refusal(alloc, refusal)?)),
    }
}

// What was asked and answered, which is lent.
fn copied_what(alloc: Global, what: &WhatView) -> Result<What, NoMemory>
    ensures { IfOk result (λ copy. copy ≡ what.now) }
{
    match &what.lent {
        LentWhat::Command(command, verdict) => {
            Ok(What::Command(**command, copied_verdict(alloc, verdict)?))
        }
        LentWhat::Deed(deed, reply) => Ok(What::Deed(deed.copy()?, copied_reply(alloc, reply)?)),
    }
}

// The entry that is lent.
fn copied_entry(alloc: Global, entry: &EntryView) -> Result<Entry, NoMemory>
    ensures { IfOk result (λ copy. copy ≡ entry.now) }
{
    Ok(Entry {
        place: entry.place,
        lane: entry.lane,
        line: entry.line,
        part: entry.part,
        what: copied_what(alloc, &entry.what)?,
    })
}

// Keeps the entry that is lent, where entries are kept.
pub(crate) fn keep(
    alloc: Global,
    entries: &mut Option<Entries>,
    entry: &EntryView,
) -> Result<(), NoMemory>
    ensures { OnOk result (entries.new ≡ kept_with entries.old (entry.now ∷ [])) }
{
    match entries {
        Some(entries) => entries.push(copied_entry(alloc, entry)?),
        None => Ok(()),
    }
}
