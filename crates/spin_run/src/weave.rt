//! The entries and jobs of all lanes, as one list of each.

ghost use Rattle.std.specs.Prelude.{◌≡◌, ◌++◌, [], map, All, IfOk, OnOk};
ghost use Rattle.std.specs.List.{flat_map};
ghost use Rattle.spin_run.specs.Inner.Weaves as weaves;
ghost use Rattle.spin_run.specs.Inner.Weaves.{AreOfTheirLanes, IsInterleaving, AreMarksInOrder, AreJobsInOrder};
ghost use Rattle.spin_run.specs.Inner.Weaves.{IsEmptied, unmarked, marks_by_lane, jobs_by_lane};

use crate::lanes::Lanes;
use crate::trail::{Marks, Trail, Trails};
use spin_proto::{Job, Jobs};
use spin_values::NoMemory;
use std::alloc::Global;
use std::mem;

impl Lanes {
    // Takes the trails and the jobs out of all lanes, and puts the marks of all entries and the jobs in the order of the
    // history: by place; at one place the accepted command first; and then by lane, line and part. A lane's marks stay
    // in their own order, and so do its jobs. It moves them, and takes a time linear in their number times the logarithm
    // of the number of lanes; the lines stay where they are, and so do entries that a lane keeps.
    pub(crate) fn weave(&mut self, alloc: Global) -> Result<(Trails, Marks, Jobs), NoMemory>
        requires marks { AreOfTheirLanes (λ mark. mark.lane) (marks_by_lane self.old) }
        requires marks_order { All AreMarksInOrder (marks_by_lane self.old) }
        requires jobs { AreOfTheirLanes (λ job. job.lane) (jobs_by_lane self.old) }
        requires jobs_order { All AreJobsInOrder (jobs_by_lane self.old) }
        ensures trails { IfOk result (λ woven. woven.0 ≡ map unmarked self.old) }
        ensures marks { let marks = marks_by_lane self.old in
            IfOk result (λ woven. IsInterleaving (λ mark. mark.lane) marks woven.1) }
        ensures marks_order { IfOk result (λ woven. AreMarksInOrder woven.1) }
        ensures jobs { let jobs = jobs_by_lane self.old in
            IfOk result (λ woven. IsInterleaving (λ job. job.lane) jobs woven.2) }
        ensures jobs_order { IfOk result (λ woven. AreJobsInOrder woven.2) }
        ensures emptied { OnOk result (All IsEmptied self.new) }
        ensures seats { OnOk result (map (λ lane. lane.seat) self.new ≡ map (λ lane. lane.seat) self.old) }
        ensures stops { map (λ lane. lane.stop) self.new ≡ map (λ lane. lane.stop) self.old }
        ensures kept { OnOk result (map (λ lane. lane.entries) self.new ≡ map (λ lane. lane.entries) self.old) }
    {
        let (trails, marks, jobs) = self.gather(alloc)?;
        let mut marks = marks.into_vec();
        marks.sort_by_key(|mark| mark.moment())?;
        let mut jobs = jobs.into_vec();
        jobs.sort_by_key(|job| job_moment(job))?;
        Ok((trails, Marks::from_vec(marks), Jobs::from_vec(jobs)))
    }

    // The trails of all lanes, without their marks; these, lane after lane; and so the jobs.
    fn gather(&mut self, alloc: Global) -> Result<(Trails, Marks, Jobs), NoMemory>
        ensures trails { IfOk result (λ all. all.0 ≡ map unmarked self.old) }
        ensures marks { IfOk result (λ all. all.1 ≡ flat_map (λ marks. marks) (marks_by_lane self.old)) }
        ensures jobs { IfOk result (λ all. all.2 ≡ flat_map (λ jobs. jobs) (jobs_by_lane self.old)) }
        ensures emptied { OnOk result (All IsEmptied self.new) }
        ensures seats { OnOk result (map (λ lane. lane.seat) self.new ≡ map (λ lane. lane.seat) self.old) }
        ensures stops { map (λ lane. lane.stop) self.new ≡ map (λ lane. lane.stop) self.old }
        ensures kept { OnOk result (map (λ lane. lane.entries) self.new ≡ map (λ lane. lane.entries) self.old) }
    {
        let mut trails = Trails::new(alloc);
        let mut marks = Marks::new(alloc);
        let mut jobs = Jobs::new(alloc);
        for lane in self.items.iter_mut() {
            take_over(&mut marks, &mut lane.trail.marks)?;
            trails.push(mem::replace(&mut lane.trail, Trail::new(alloc)))?;
            jobs.append(&mut lane.jobs)?;
        }
        Ok((trails, marks, jobs))
    }
}

// Moves all marks of a lane behind those that are there, and gives their room back. Where none is there the lane's own
// list is taken, so that of a lone lane is never held twice.
fn take_over(marks: &mut Marks, own: &mut Marks) -> Result<(), NoMemory>
    ensures { OnOk result ((marks.new ≡ marks.old ++ own.old) × (own.new ≡ [])) }
{
    if marks.is_empty() {
        mem::swap(marks, own);
        return Ok(());
    }
    marks.append(own)?;
    own.shrink_to_fit();
    Ok(())
}

// Where a job stands among those of its segment.
fn job_moment(job: &Job) -> (u16, u8, u32, u32)
    ensures { result ≡ weaves.job_moment job.now }
{
    (job.place, job.lane, job.line, job.part)
}
