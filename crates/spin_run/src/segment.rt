//! One segment: its lanes side by side, then one history of them all, then its jobs.

ghost use Rattle.std.specs.Prelude.{◌≡◌, ◌+◌, ◌≤◌, false, length, All, Any, IsTrue, Some, IfOk, OnOk, OnErr};
ghost use Rattle.spin_word.specs.declared.command.TheConstants.{MAX_PLACE};
ghost use Rattle.spin_table.specs.SetupOf.{data_of};
ghost use Rattle.spin_seat.specs.declared.answer.SeatFault.TheVariants as fault;
ghost use Rattle.spin_report.specs.Segments.{asked_in};
ghost use Rattle.spin_run.specs.Lanes.{HadMemory};
ghost use Rattle.spin_run.specs.Segments.{AreAtRest, AreReady, IsFitSegment, HasWoven, HaveRunShort, place_of};
ghost use Rattle.spin_script.specs.Soundness.{commands_in};

use crate::lanes::{Lanes, run_lanes};
use crate::trail::{Marks, Trails};
use spin_code::Sincere;
use spin_jobs::{Replies, run_all};
use spin_objects::Catalogue;
use spin_outside::Gate;
use spin_pcap::Frames;
use spin_proto::Jobs;
use spin_script::Segment;
use spin_seat::{Hub, SeatFault};
use spin_values::NoMemory;
use std::alloc::Global;
use std::thread::Threads;

/// How many workers do the jobs of a segment.
pub const WORKERS: u8 = 4;

/// What a segment came to: the entries of all lanes, of which their lines, their sends and marks are kept.
#[derive(Drop)]
pub struct Woven {
    /// What the entries of each lane leave, without their marks.
    pub trails: Trails,
    /// The marks of all entries, in the order of the history.
    pub marks: Marks,
    /// The jobs that they leave, in the order of their entries.
    pub jobs: Jobs,
    /// What each job came to, in the same order.
    pub replies: Replies,
}

/// Runs the lanes of the segment side by side, lets all seats meet, puts what the lanes answered into one history, and
/// does the jobs that it leaves.
///
/// The entries are a legal history of the plain dispatcher, from the state of the front that all lanes know before it
/// to the one that they are ready in afterwards: each lane's deeds are answered once each and in its order, and nothing
/// else is. They stand by place; at one place the accepted command first; and then by lane, line and part. The front
/// grows by the rows of the accepted commands, in this order. The jobs are those that the entries leave, in order, each
/// with the version of its entry's place, and each has its reply at the state of its own entry. So it is whatever the
/// schedule of the lanes and of the jobs.
///
/// A seat that keeps a row applies it before its first answer. The frames are the records that the segment's packet
/// lines take, in the order of the text. The log has room for the segment's commands. After want of memory the lanes
/// are of no further use; of each whose stop it is [`Lane::run`](crate::Lane::run) says how it ended.
pub fn run_segment<R: Threads + Sync, G: Gate>(
    rt: &R,
    alloc: Global,
    hub: &Hub,
    lanes: &mut Lanes,
    segment: &Segment,
    frames: &Frames,
    gate: &G,
) -> Result<Woven, NoMemory>
    requires sincere { ⟦<Catalogue as Sincere>⟧.sincere hub.now.setup.catalogue }
    requires ready { let d = data_of hub.now.setup in
        AreAtRest d hub.now.log.id hub.now.log.lanes lanes.old }
    requires lines { IsFitSegment (length lanes.old) segment.now.lines }
    requires room { let d = data_of hub.now.setup in
        place_of d lanes.old + commands_in segment.now.lines ≤ MAX_PLACE }
    ensures woven { let d = data_of hub.now.setup in
        let asked = asked_in segment.now.lines frames.now in
        IfOk result (HasWoven d asked lanes.old lanes.new) }
    ensures replies { IfOk result (λ w. length w.replies ≡ length w.jobs) }
    ensures ready { let d = data_of hub.now.setup in
        OnOk result (AreReady d hub.now.log.id hub.now.log.lanes lanes.new) }
    ensures taken { let d = data_of hub.now.setup in
        let most = place_of d lanes.old + commands_in segment.now.lines in
        OnOk result (place_of d lanes.new ≤ most) }
    ensures short { let d = data_of hub.now.setup in
        let asked = asked_in segment.now.lines frames.now in
        OnErr result (HaveRunShort d asked lanes.old lanes.new) }
{
    run_lanes(rt, alloc, hub, lanes, segment, frames, gate);
    if lanes.lacked_memory() {
        return Err(NoMemory);
    }
    lanes.meet(alloc, hub)?;
    let (trails, marks, jobs) = lanes.weave(alloc)?;
    let replies = run_all(rt, alloc, hub.setup(), &jobs, WORKERS, gate)?;
    Ok(Woven {
        trails,
        marks,
        jobs,
        replies,
    })
}

impl Lanes {
    // Whether a lane ended for want of memory.
    fn lacked_memory(&self) -> bool
        ensures had { result ≡ false → All (λ lane. HadMemory lane.stop) self.now }
        ensures lacked { IsTrue result → Any (λ lane. lane.stop ≡ Some fault.NoMemory) self.now }
    {
        self.items
            .iter()
            .any(|lane| matches!(lane.stop, Some(SeatFault::NoMemory)))
    }
}
