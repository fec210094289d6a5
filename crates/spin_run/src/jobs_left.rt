//! The jobs that an answer leaves.

ghost use Rattle.std.specs.Prelude.{◌<◌, ◌^◌, length, All, OnOk};
ghost use Rattle.spin_proto.specs.Replies.{BelongsTo};
ghost use Rattle.spin_report.specs.Jobs.{answer_calls};
ghost use Rattle.spin_seat.specs.Seats.{version_of};
ghost use Rattle.spin_run.specs.Inner.Answering.{AddsJobs};

use spin_proto::{Job, Jobs};
use spin_report::EntryView;
use spin_seat::Seat;
use spin_values::NoMemory;

// Adds the jobs that an entry leaves, to be done on the seat's version.
pub(crate) fn leave_jobs(jobs: &mut Jobs, entry: &EntryView, seat: &Seat) -> Result<(), NoMemory>
    requires few { length (answer_calls entry.now.what) < 2 ^ 32 }
    requires belong { All (BelongsTo seat.now.state) (answer_calls entry.now.what) }
    ensures { let calls = answer_calls entry.now.what in
        OnOk result (AddsJobs entry.now (version_of seat.now) calls jobs.old jobs.new) }
{
    let mut index = 0;
    for call in entry.what.calls() {
        jobs.push(Job {
            version: seat.version()?,
            call: call.copy()?,
            place: entry.place,
            lane: entry.lane,
            line: entry.line,
            part: entry.part,
            index,
        })?;
        index += 1;
    }
    Ok(())
}
