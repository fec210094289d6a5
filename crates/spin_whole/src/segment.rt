//! One segment of a run.

ghost use Rattle.std.specs.Prelude.{◌≡◌, ◌<◌, ◌≤◌, ◌+◌, ◌++◌, ℕ, List, All, AllPairs, OnOk, drop, filter, length};
ghost use Rattle.std.specs.Arc.{arc_value};
ghost use Rattle.spin_word.specs.declared.command.TheConstants.{MAX_PLACE};
ghost use Rattle.spin_endpoint.specs.Named.{NamedEnd};
ghost use Rattle.spin_endpoint.specs.declared.ends.TheConstants.{MAX_ENDPOINTS};
ghost use Rattle.spin_table.specs.SetupOf.{data_of};
ghost use Rattle.spin_table.specs.Soundness.{IsSoundVersion};
ghost use Rattle.spin_script.specs.Soundness.{IsValidWork, commands_in};
ghost use Rattle.spin_report.specs.Segments.{wanted_by};
ghost use Rattle.spin_check.specs.Inner.Standings.{AreFlags};
ghost use Rattle.spin_whole.specs.Inner.Standings.{IsGood, KeepsRest, RunsOne, TakesPart};

use crate::flags::lost_all;
use crate::part::Part;
use crate::ran::Sendings;
use crate::sends::keep_standing;
use spin_check::retire_all;
use spin_code::Sincere;
use spin_objects::Catalogue;
use spin_report::{segment_text, split_records};
use spin_script::{Line, Segment};
use spin_table::{Setup, Version};
use spin_values::{NoMemory, Octets};
use std::alloc::Global;
use std::sync::Arc;

// Where a run stands between two segments.
#[derive(Drop)]
pub(crate) struct Standing<'a> {
    // The report so far.
    pub(crate) report: Octets,
    // What endpoints received so far.
    pub(crate) sends: Sendings,
    pub(crate) version: Arc<Version>,
    // The records of the capture that are left.
    pub(crate) left: &'a [Octets],
    // Whether an endpoint stands under the name of each number.
    pub(crate) flags: Vec<bool>,
}

// The records that these lines leave.
fn behind<'a>(lines: &[Line], records: &'a [Octets]) -> &'a [Octets]
    ensures { result.now ≡ drop (wanted_by lines.now) records.now }
{
    let mut left = records;
    for line in lines {
        left = split_records(&line.work, left).1;
    }
    left
}

impl<'a> Standing<'a> {
    // Appends what a segment has come to: the lines of its entries and jobs, a line for each endpoint to which sends
    // were lost, and what the others received.
    fn take(&mut self, part: Part) -> Result<(), NoMemory>
        requires few { length self.old.flags.items ≤ MAX_ENDPOINTS }
        ensures takes { (names : List (List ℕ)) (ends : List NamedEnd) → AreFlags names ends self.old.flags.items
            → OnOk result (TakesPart names ends part self.old self.new) }
        ensures keeps { OnOk result (KeepsRest part self.old self.new) }
    {
        let Part {
            version,
            mut text,
            mut sends,
            mut owed,
            mut job_sends,
        } = part;
        self.report.append(&mut text)?;
        self.report.append(&mut owed)?;
        sends.append(&mut job_sends)?;
        let flags = self.flags.as_slice();
        lost_all(flags, sends.as_slice(), &mut self.report)?;
        self.sends.append(&mut keep_standing(flags, sends))?;
        self.version = version;
        Ok(())
    }

    // Runs the segment of that number: its endpoints are retired, its lanes' deeds are done one lane after another, each
    // deed's jobs at once, and its sends are received or lost.
    pub(crate) fn run_segment(
        &mut self,
        alloc: Global,
        setup: &Setup,
        lanes: u8,
        number: usize,
        segment: &Segment,
    ) -> Result<(), NoMemory>
        requires sincere { ⟦<Catalogue as Sincere>⟧.sincere setup.now.catalogue }
        requires sound { IsSoundVersion (data_of setup.now) (arc_value self.old.version) }
        requires rise { AllPairs (λ line later. line.number < later.number) segment.now.lines }
        requires valid { All (λ line. IsValidWork line.work) segment.now.lines }
        requires retired { All (λ number. number < length self.old.flags.items) segment.now.retires }
        requires few { length self.old.flags.items ≤ MAX_ENDPOINTS }
        requires room { (arc_value self.old.version).state.place + commands_in segment.now.lines ≤ MAX_PLACE }
        ensures runs { (names : List (List ℕ)) (ends : List NamedEnd) → AreFlags names ends self.old.flags.items
            → OnOk result (RunsOne (data_of setup.now) lanes names number segment.now ends self.old self.new) }
        ensures good { OnOk result (IsGood (data_of setup.now) segment.now self.old self.new) }
    {
        let lines = segment.lines.as_slice();
        retire_all(
            self.flags.as_mut_slice(),
            segment.retires.as_slice(),
            &mut self.report,
        )?;
        segment_text(number, self.version.place(), &mut self.report)?;
        let mut part = Part::new(alloc, Arc::try_clone(&self.version)?);
        part.answer_lanes(alloc, setup, lanes, lines, self.left)?;
        self.left = behind(lines, self.left);
        self.take(part)
    }
}
