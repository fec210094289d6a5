//! The jobs that an entry leaves.

ghost use Rattle.std.specs.Prelude.{◌≡◌, ◌<◌, ◌^◌, ◌++◌, All, OnOk, length};
ghost use Rattle.std.specs.Arc.{arc_value};
ghost use Rattle.spin_table.specs.SetupOf.{data_of};
ghost use Rattle.spin_table.specs.Soundness.{IsSoundVersion};
ghost use Rattle.spin_proto.specs.Replies.{IsJobReply, BelongsTo};
ghost use Rattle.spin_proto.specs.declared.reply.Reply.{Reply as ReplyValue};
ghost use Rattle.spin_text.specs.Words.{ended};
ghost use Rattle.spin_report.specs.Lines.{job_seen, job_line};
ghost use Rattle.spin_report.specs.Jobs.{answer_calls};
ghost use Rattle.spin_report.specs.Runs.{sends_of_reply};
ghost use Rattle.spin_whole.specs.Inner.Parts.{DidJobs};

use crate::ran::Sendings;
use crate::sends::add_steps;
use spin_code::Sincere;
use spin_objects::Catalogue;
use spin_proto::{Job, job_path};
use spin_report::{EntryView, job_text};
use spin_table::{Setup, Version};
use spin_values::{NoMemory, Octets};
use std::alloc::Global;
use std::sync::Arc;

// Does one job, and appends its line and what it sends.
fn do_job(
    alloc: Global,
    setup: &Setup,
    job: &Job,
    out: &mut Octets,
    sends: &mut Sendings,
) -> Result<(), NoMemory>
    requires sincere { ⟦<Catalogue as Sincere>⟧.sincere setup.now.catalogue }
    requires sound { IsSoundVersion (data_of setup.now) (arc_value job.now.version) }
    requires belongs { BelongsTo (arc_value job.now.version).state job.now.call }
    ensures { OnOk result ((reply : ReplyValue)
        × IsJobReply (data_of setup.now) (arc_value job.now.version).state job.now.call reply
        × (out.new ≡ out.old ++ ended (job_line (job_seen job.now reply)))
        × (sends.new ≡ sends.old ++ sends_of_reply reply)) }
{
    let reply = job_path(alloc, &job.version, setup, &job.call)?;
    job_text(job, &reply, out)?;
    add_steps(sends, reply.trace())
}

// Does the jobs that an entry leaves, on the version of its place, and appends the line of each and what they send.
pub(crate) fn do_jobs(
    alloc: Global,
    setup: &Setup,
    version: &Arc<Version>,
    entry: &EntryView<'_>,
    out: &mut Octets,
    sends: &mut Sendings,
) -> Result<(), NoMemory>
    requires sincere { ⟦<Catalogue as Sincere>⟧.sincere setup.now.catalogue }
    requires sound { IsSoundVersion (data_of setup.now) (arc_value version.now) }
    requires belong { All (BelongsTo (arc_value version.now).state) (answer_calls entry.now.what) }
    requires few { length (answer_calls entry.now.what) < 2 ^ 32 }
    ensures { let d = data_of setup.now in
        OnOk result (DidJobs d (arc_value version.now).state entry.now (out.old, sends.old) (out.new, sends.new)) }
{
    let mut index = 0;
    for call in entry.what.calls() {
        let job = Job {
            version: Arc::try_clone(version)?,
            call: call.copy()?,
            place: entry.place,
            lane: entry.lane,
            line: entry.line,
            part: entry.part,
            index,
        };
        do_job(alloc, setup, &job, out, sends)?;
        index += 1;
    }
    Ok(())
}
