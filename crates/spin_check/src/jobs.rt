//! The jobs that an entry leaves.

ghost use Rattle.std.specs.Prelude.{◌≡◌, ◌<◌, ◌^◌, ◌++◌, All, IfOk, OnOk, length};
ghost use Rattle.std.specs.Arc.{arc_value};
ghost use Rattle.spin_table.specs.SetupOf.{data_of};
ghost use Rattle.spin_table.specs.Soundness.{IsSoundVersion};
ghost use Rattle.spin_proto.specs.Replies.{IsJobReply, BelongsTo};
ghost use Rattle.spin_proto.specs.declared.reply.Reply.{Reply};
ghost use Rattle.spin_text.specs.Words.{ended};
ghost use Rattle.spin_report.specs.Lines.{job_seen, job_line};
ghost use Rattle.spin_report.specs.Jobs.{answer_calls};
ghost use Rattle.spin_report.specs.Runs.{sends_of_reply};
ghost use Rattle.spin_check.specs.Inner.Standings.{numbers_of};
ghost use Rattle.spin_check.specs.Inner.Replays.{DidJobs};

use crate::sends::add_of_reply;
use spin_code::Sincere;
use spin_objects::Catalogue;
use spin_proto::{Job, JobCall, Reply, job_path};
use spin_report::{Entry, What, job_text};
use spin_table::{Setup, Version};
use spin_values::{NoMemory, Octets};
use std::alloc::Global;
use std::collections::VecDeque;
use std::sync::Arc;

// The calls that an answer leaves to jobs.
fn into_calls(alloc: Global, what: What) -> Result<Vec<JobCall>, NoMemory>
    ensures { IfOk result (λ calls. calls.items ≡ answer_calls what) }
{
    let mut calls = Vec::new(alloc);
    let What::Deed(_deed, reply) = what else {
        return Ok(calls);
    };
    match reply {
        Reply::Ran {
            answer: _,
            trace: _trace,
            jobs,
        } => return Ok(jobs.into_vec()),
        Reply::Queued(call) => calls.push(call)?,
        Reply::UnknownEvent | Reply::WrongArgs | Reply::Spent => {}
    }
    Ok(calls)
}

// Does one job, and appends its line and the numbers of the endpoints that it sends to.
fn do_job(
    alloc: Global,
    setup: &Setup,
    job: &Job,
    out: &mut Octets,
    sends: &mut Octets,
) -> Result<(), NoMemory>
    requires sincere { ⟦<Catalogue as Sincere>⟧.sincere setup.now.catalogue }
    requires sound { IsSoundVersion (data_of setup.now) (arc_value job.now.version) }
    requires belongs { BelongsTo (arc_value job.now.version).state job.now.call }
    ensures { OnOk result ((reply : Reply)
        × IsJobReply (data_of setup.now) (arc_value job.now.version).state job.now.call reply
        × (out.new ≡ out.old ++ ended (job_line (job_seen job.now reply)))
        × (sends.new ≡ sends.old ++ numbers_of (sends_of_reply reply))) }
{
    let reply = job_path(alloc, &job.version, setup, &job.call)?;
    job_text(job, &reply, out)?;
    add_of_reply(sends, &reply)
}

// Does the jobs that an entry leaves, on the version of its place. It appends the line of each, and the numbers of the
// endpoints that they send to. A call is moved into its job. False, with the last line appended, as soon as the lines
// are longer than the room for them.
pub(crate) fn do_jobs(
    alloc: Global,
    setup: &Setup,
    version: &Arc<Version>,
    entry: Entry,
    room: usize,
    out: &mut Octets,
    sends: &mut Octets,
) -> Result<bool, NoMemory>
    requires sincere { ⟦<Catalogue as Sincere>⟧.sincere setup.now.catalogue }
    requires sound { IsSoundVersion (data_of setup.now) (arc_value version.now) }
    requires belong { All (BelongsTo (arc_value version.now).state) (answer_calls entry.what) }
    requires few { length (answer_calls entry.what) < 2 ^ 32 }
    ensures { let d = data_of setup.now in
        IfOk result (DidJobs d (arc_value version.now).state entry room (out.old, sends.old) (out.new, sends.new)) }
{
    let Entry {
        place,
        lane,
        line,
        part,
        what,
    } = entry;
    let mut index = 0;
    let mut calls = VecDeque::from(into_calls(alloc, what)?);
    while let Some(call) = calls.pop_front() {
        let job = Job {
            version: Arc::try_clone(version)?,
            call,
            place,
            lane,
            line,
            part,
            index,
        };
        do_job(alloc, setup, &job, out, sends)?;
        if out.len() > room {
            return Ok(false);
        }
        index += 1;
    }
    Ok(true)
}
