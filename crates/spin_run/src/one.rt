//! One segment of a script.

ghost use Rattle.std.specs.Prelude.{◌≡◌, ◌<◌, ◌≤◌, ◌+◌, length, sum_by, All, OnOk};
ghost use Rattle.spin_word.specs.declared.command.TheConstants.{MAX_PLACE};
ghost use Rattle.spin_endpoint.specs.declared.ends.TheConstants.{MAX_ENDPOINTS};
ghost use Rattle.spin_table.specs.SetupOf.{data_of};
ghost use Rattle.spin_script.specs.Segments.{SendsBelow};
ghost use Rattle.spin_report.specs.Segments as specs;
ghost use Rattle.spin_run.specs.Segments.{IsFitSegment, place_of, state_of};
ghost use Rattle.spin_script.specs.States.{deed_count};
ghost use Rattle.spin_script.specs.Checks.{most_deeds};
ghost use Rattle.spin_script.specs.Soundness.{commands_in};
ghost use Rattle.spin_run.specs.Inner.Steps.{RunsOne, ResultCounts};
ghost use Rattle.spin_run.specs.Inner.Course.{AreReadyIn, setting_in};
ghost use Rattle.spin_run.specs.Inner.Outside.{seen_by, moment_by, HoldsSame};

use crate::course::Course;
use crate::end::RunEnd;
use crate::lanes::Lanes;
use crate::outside::Outside;
use crate::records::read_records;
use crate::retiring::retire;
use crate::segment::run_segment;
use crate::sends::send_all;
use crate::telling::{Part, Telling};
use spin_code::Sincere;
use spin_endpoint::{Ends, EndsSeen};
use spin_objects::Catalogue;
use spin_outside::{Gate, Source};
use spin_report::records_wanted;
use spin_script::{Line, Segment};
use std::thread::Threads;

// How many records the packet lines want.
fn wanted_by(lines: &[Line]) -> u32
    requires { sum_by (λ line. deed_count line.work) lines.now ≤ most_deeds }
    ensures { result ≡ specs.wanted_by lines.now }
{
    let mut wanted = 0;
    for line in lines {
        wanted += records_wanted(&line.work);
    }
    wanted
}

// Runs a segment: its endpoints are retired, the records that it wants are read, its lanes are run, its sends are
// made, and it is told.
pub(crate) fn run_one<R: Threads + Sync, S: Source, T: Telling, G: Gate>(
    course: &Course<R, G>,
    lanes: &mut Lanes,
    outside: &mut Outside<S, T>,
    number: usize,
    segment: &Segment,
) -> Result<(), RunEnd>
    requires sincere { ⟦<Catalogue as Sincere>⟧.sincere course.now.hub.now.setup.catalogue }
    requires ready { AreReadyIn course.now lanes.old }
    requires lines { IsFitSegment (length lanes.old) segment.now.lines }
    requires room { let d = data_of course.now.hub.now.setup in
        place_of d lanes.old + commands_in segment.now.lines ≤ MAX_PLACE }
    requires few { length course.now.names.now ≤ MAX_ENDPOINTS }
    requires retired { All (λ endpoint. endpoint < length course.now.names.now) segment.now.retires }
    requires sent { let d = data_of course.now.hub.now.setup in
        All (SendsBelow (length course.now.names.now)) d.handlers }
    ensures one { let s = setting_in course.now (length lanes.old) in
        let look = moment_by S.seen T.seen ⟦<Ends as EndsSeen>⟧.all in
        let before = look (state_of s.setup lanes.old) outside.old in
        let after = look (state_of s.setup lanes.new) outside.new in
        RunsOne s number segment.now before (T.counts outside.old.out.now) after (T.counts outside.new.out.now) result }
    ensures ready { OnOk result (AreReadyIn course.now lanes.new) }
    ensures taken { let d = data_of course.now.hub.now.setup in
        let most = place_of d lanes.old + commands_in segment.now.lines in
        OnOk result (place_of d lanes.new ≤ most) }
    ensures keep { (S.seen outside.new.source.now).keep ≡ (S.seen outside.old.source.now).keep }
    ensures same { HoldsSame T.reference outside.old outside.new }
    ensures counts { let look = seen_by S.seen T.seen ⟦<Ends as EndsSeen>⟧.all in
        ResultCounts course.now.names.now (look outside.old) (look outside.new) result }
{
    let alloc = course.alloc;
    let hub = course.hub;
    let names = course.names;
    let retired = retire(alloc, outside.ends, names, segment.retires.as_slice())?;
    let wanted = wanted_by(segment.lines.as_slice());
    let frames = read_records(alloc, outside.capture, outside.source, wanted)?;
    let start = lanes.place(hub);
    let woven = run_segment(course.rt, alloc, hub, lanes, segment, &frames, course.gate)?;
    let trails = woven.trails.as_slice();
    let marks = woven.marks.as_slice();
    let replies = woven.replies.as_slice();
    let lost = send_all(alloc, outside.ends, names, trails, marks, replies)?;
    outside.out.tell(Part {
        retired,
        number,
        start,
        woven,
        lost,
        endpoints: names.len() as u8,
    })
}
