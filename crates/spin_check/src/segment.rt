//! One segment of a report.

ghost use Rattle.std.specs.Prelude.{◌≡◌, ◌<◌, ◌≤◌, ◌+◌, ◌++◌, ℕ, List, All, IfOk, length};
ghost use Rattle.spin_word.specs.declared.command.TheConstants.{MAX_LANES, MAX_PLACE};
ghost use Rattle.spin_endpoint.specs.declared.ends.TheConstants.{MAX_ENDPOINTS};
ghost use Rattle.spin_endpoint.specs.Named.{NamedEnd};
ghost use Rattle.spin_endpoint.specs.Sends.{SentSeen, all_retired};
ghost use Rattle.spin_table.specs.SetupOf.{data_of};
ghost use Rattle.spin_table.specs.Soundness.{IsSoundVersion};
ghost use Rattle.spin_text.specs.Words.{text_of};
ghost use Rattle.spin_script.specs.Soundness.{IsValidWork, commands_in};
ghost use Rattle.spin_report.specs.Histories.{lost_lines};
ghost use Rattle.spin_report.specs.Runs.{retirements, lost_counts};
ghost use Rattle.spin_check.specs.Inner.Standings.{AreFlags, numbers_of};
ghost use Rattle.spin_check.specs.Inner.Fronts.{IsBehind};
ghost use Rattle.spin_check.specs.Inner.Segments.{Goes, IsGoodMark, gone_to, head_text, version_of};

use crate::deeds::deeds_of;
use crate::flags::{lost_all, retire_all};
use crate::front::behind;
use crate::replay::Replay;
use spin_code::Sincere;
use spin_objects::Catalogue;
use spin_report::segment_text;
use spin_script::Segment;
use spin_table::{Setup, Version};
use spin_values::{NoMemory, Octets};
use std::alloc::Global;
use std::marker::Model;
use std::sync::Arc;

// Where a check stands between two segments.
#[derive(Drop)]
pub(crate) struct Mark<'a> {
    // What is left of the report.
    pub(crate) rest: &'a [u8],
    pub(crate) version: Arc<Version>,
    // The records of the capture that are left.
    pub(crate) left: &'a [Octets],
    // Whether an endpoint stands under the name of each number.
    pub(crate) flags: Vec<bool>,
}

impl<'a> Model for Mark<'a> {
    ghost use Rattle.std.specs.Arc.{arc_value};
    ghost use Rattle.std.specs.Coded.{codes};
    ghost use Rattle.spin_code.specs.contracts.test.Test as test;
    ghost use Rattle.spin_check.specs.Inner.Segments.{Mark as MarkSeen};

    ghost Value = { MarkSeen };

    ghost coded = { Prim.hlevel (codes, test.the_row.coded) };

    ghost view = { λ m. record {
      state = (arc_value m.version).state;
      tests = (arc_value m.version).tests;
      left = m.left.now;
      flags = m.flags.items;
      rest = m.rest.now;
    } };
}

// What is left of the report behind the head of a segment: the line of each endpoint that it retires, and the line of
// its number and of the place where it begins. None where the report doesn't begin with the head.
fn behind_head<'a>(
    alloc: Global,
    report: &'a [u8],
    number: usize,
    place: u16,
    retires: &[u16],
    flags: &mut [bool],
) -> Result<Option<&'a [u8]>, NoMemory>
    requires { All (λ n. n < length flags.old) retires.now }
    ensures { (names : List (List ℕ)) (ends : List NamedEnd) → AreFlags names ends flags.old
        → IfOk result (λ rest. IsBehind (head_text number place (retirements names retires.now ends)) report.now rest
        × AreFlags names (all_retired names retires.now ends) flags.new) }
{
    let mut head = Octets::new(alloc);
    retire_all(flags, retires, &mut head)?;
    segment_text(number, place, &mut head)?;
    Ok(behind(report, head.as_slice()))
}

// What is left of the report behind the lines that are owed behind a segment's entries: those of its jobs, and one for
// each endpoint to which sends are lost. None where the report doesn't begin with them.
fn behind_tail<'a>(
    report: &'a [u8],
    flags: &[bool],
    sends: &mut Octets,
    job_sends: &mut Octets,
    owed: &mut Octets,
) -> Result<Option<&'a [u8]>, NoMemory>
    requires { length flags.now ≤ MAX_ENDPOINTS }
    ensures { (names : List (List ℕ)) (ends : List NamedEnd) (sent : List SentSeen) → AreFlags names ends flags.now
        → numbers_of sent ≡ sends.old ++ job_sends.old
        → IfOk result (IsBehind (owed.old ++ text_of (lost_lines (lost_counts names ends sent))) report.now) }
{
    sends.append(job_sends)?;
    lost_all(flags, sends.as_slice(), owed)?;
    Ok(behind(report, owed.as_slice()))
}

impl<'a> Mark<'a> {
    // Goes over a segment: its endpoints are retired, its lanes' deeds are replayed along the report, its jobs are done
    // and its lost sends counted. False where the report goes on with no history of the segment. It is linear in the
    // segment's part of the report and in its lines, beside the work of the raises.
    pub(crate) fn pass(
        &mut self,
        alloc: Global,
        setup: &Setup,
        lanes: u8,
        number: usize,
        segment: &Segment,
    ) -> Result<bool, NoMemory>
        requires sincere { ⟦<Catalogue as Sincere>⟧.sincere setup.now.catalogue }
        requires sound { IsSoundVersion (data_of setup.now) (version_of self.old) }
        requires few_lanes { lanes ≤ MAX_LANES }
        requires on_lanes { All (λ line. line.lane < lanes) segment.now.lines }
        requires valid { All (λ line. IsValidWork line.work) segment.now.lines }
        requires retired { All (λ number. number < length self.old.flags) segment.now.retires }
        requires few { length self.old.flags ≤ MAX_ENDPOINTS }
        requires room { self.old.state.place + commands_in segment.now.lines ≤ MAX_PLACE }
        ensures goes { (names : List (List ℕ)) (ends : List NamedEnd) → AreFlags names ends self.old.flags
            → IfOk result
            (λ went. Goes (data_of setup.now) lanes names number segment.now self.old ends (gone_to went self.new)) }
        ensures good { IfOk result
            (λ went. IsGoodMark (data_of setup.now) segment.now self.old (gone_to went self.new)) }
    {
        let place = self.version.place();
        let flags = self.flags.as_mut_slice();
        let head = behind_head(
            alloc,
            self.rest,
            number,
            place,
            segment.retires.as_slice(),
            flags,
        )?;
        let Some(rest) = head else {
            return Ok(false);
        };
        let (deeds, left) = deeds_of(alloc, lanes, segment.lines.as_slice(), self.left)?;
        let version = Arc::try_clone(&self.version)?;
        let ran = Replay::new(alloc, rest, version, deeds).run(alloc, setup)?;
        let Some(replay) = ran else {
            return Ok(false);
        };
        let Replay {
            rest: behind_entries,
            version,
            mut owed,
            mut sends,
            mut job_sends,
            ..
        } = replay;
        let flags = self.flags.as_slice();
        let tail = behind_tail(behind_entries, flags, &mut sends, &mut job_sends, &mut owed)?;
        let Some(rest) = tail else {
            return Ok(false);
        };
        self.rest = rest;
        self.version = version;
        self.left = left;
        Ok(true)
    }
}
