//! The replay of a segment's entries along the report.

ghost use Rattle.std.specs.Prelude.{◌≡◌, ◌≤◌, ◌+◌, ℕ, List, All, IfOk, Decides, length};
ghost use Rattle.std.specs.Arc.{arc_value};
ghost use Rattle.spin_word.specs.declared.command.TheConstants.{MAX_LANES, MAX_PLACE};
ghost use Rattle.spin_table.specs.SetupOf.{data_of};
ghost use Rattle.spin_table.specs.Soundness.{IsSoundVersion};
ghost use Rattle.spin_text.specs.Words.{ended};
ghost use Rattle.spin_report.specs.Lines.{entry_line};
ghost use Rattle.spin_check.specs.Inner.Asks.{IsValid, commands_left};
ghost use Rattle.spin_check.specs.Inner.Replays.{Follows, IsFresh, IsFound, GoesOn, EndsAt, at_of, version_at};
ghost use Rattle.spin_check.specs.Inner.Fronts.{IsBehind};

use crate::answer::{Answered, answer};
use crate::deeds::Deeds;
use crate::front::behind;
use crate::jobs::do_jobs;
use crate::sends::add_of_entry;
use crate::told::lane_told;
use spin_code::Sincere;
use spin_objects::Catalogue;
use spin_report::{Entry, EntryKey, entry_text};
use spin_table::{Setup, Version};
use spin_values::{NoMemory, Octets};
use std::alloc::Global;
use std::marker::Model;
use std::sync::Arc;

// Where the replay of a segment stands.
#[derive(Drop)]
pub(crate) struct Replay<'a> {
    // What is left of the report.
    pub(crate) rest: &'a [u8],
    pub(crate) version: Arc<Version>,
    // What the lanes are still to do.
    pub(crate) deeds: Deeds,
    // Where the last entry stands.
    pub(crate) last: Option<EntryKey>,
    // The lines of the jobs so far, which aren't longer than what is left of the report.
    pub(crate) owed: Octets,
    // The numbers of the endpoints that entries send to.
    pub(crate) sends: Octets,
    // And of those that jobs send to.
    pub(crate) job_sends: Octets,
}

impl<'a> Model for Replay<'a> {
    ghost use Rattle.std.specs.Arc.{arc_value};
    ghost use Rattle.std.specs.Coded.{codes};
    ghost use Rattle.spin_code.specs.contracts.test.Test as test;
    ghost use Rattle.spin_check.specs.Inner.Replays.{At};

    ghost Value = { At };

    ghost coded = { Prim.hlevel (codes, test.the_row.coded) };

    ghost view = { λ r. record {
      state = (arc_value r.version).state;
      tests = (arc_value r.version).tests;
      queues = r.deeds;
      last = r.last;
      rest = r.rest.now;
      owed = r.owed;
      sends = r.sends;
      job_sends = r.job_sends;
    } };
}

// Whether the entry doesn't stand before the last one.
fn follows(last: &Option<EntryKey>, entry: &Entry) -> bool
    ensures { Decides result (Follows last.now entry.now) }
{
    match last {
        None => true,
        Some(last) => !(entry.moment() < *last),
    }
}

// The report behind the line of the entry, where it begins with it.
fn behind_entry<'a>(
    alloc: Global,
    entry: &Entry,
    report: &'a [u8],
) -> Result<Option<&'a [u8]>, NoMemory>
    ensures { let line = ended (entry_line entry.now) in
        IfOk result (IsBehind line report.now) }
{
    let mut line = Octets::new(alloc);
    entry_text(entry, &mut line)?;
    Ok(behind(report, line.as_slice()))
}

// The one entry that may come next, the version that it leads to, and the report behind its line. What it answers is
// taken out of what its lane is to do.
fn next_entry<'a>(
    alloc: Global,
    setup: &Setup,
    version: &Arc<Version>,
    deeds: &mut Deeds,
    last: &Option<EntryKey>,
    report: &'a [u8],
) -> Result<Option<(Answered, &'a [u8])>, NoMemory>
    requires sincere { ⟦<Catalogue as Sincere>⟧.sincere setup.now.catalogue }
    requires sound { IsSoundVersion (data_of setup.now) (arc_value version.now) }
    requires valid { All (λ queue. All IsValid queue) deeds.old }
    requires lanes { length deeds.old ≤ MAX_LANES }
    requires room { (arc_value version.now).state.place + commands_left deeds.old ≤ MAX_PLACE }
    ensures { (owed sends job_sends : List ℕ) → IfOk result (IsFound (data_of setup.now)
        (at_of (arc_value version.now) deeds.old last.now report.now owed sends job_sends) deeds.new) }
{
    let Some(lane) = lane_told(report) else {
        return Ok(None);
    };
    let Some(ask) = deeds.take_next(lane) else {
        return Ok(None);
    };
    let answered = answer(alloc, setup, version, ask, report)?;
    let Some(answered) = answered else {
        return Ok(None);
    };
    let Some(rest) = behind_entry(alloc, &answered.entry, report)? else {
        return Ok(None);
    };
    if !follows(last, &answered.entry) {
        return Ok(None);
    }
    Ok(Some((answered, rest)))
}

impl<'a> Replay<'a> {
    // A replay that begins at this version and front of the report, with all of the deeds still to do.
    pub(crate) fn new(
        alloc: Global,
        rest: &'a [u8],
        version: Arc<Version>,
        deeds: Deeds,
    ) -> Replay<'a>
        ensures fresh { IsFresh result }
        ensures state { result.state ≡ (arc_value version).state }
        ensures tests { result.tests ≡ (arc_value version).tests }
        ensures queues { result.queues ≡ deeds }
        ensures rest { result.rest ≡ rest.now }
    {
        Replay {
            rest,
            version,
            deeds,
            last: None,
            owed: Octets::new(alloc),
            sends: Octets::new(alloc),
            job_sends: Octets::new(alloc),
        }
    }

    // Goes on by the one entry that may come next, with its jobs, while what is left of the report has room for their
    // lines.
    fn step(self, alloc: Global, setup: &Setup) -> Result<Option<Replay<'a>>, NoMemory>
        requires sincere { ⟦<Catalogue as Sincere>⟧.sincere setup.now.catalogue }
        requires sound { IsSoundVersion (data_of setup.now) (version_at self) }
        requires valid { All (λ queue. All IsValid queue) self.queues }
        requires lanes { length self.queues ≤ MAX_LANES }
        requires room { self.state.place + commands_left self.queues ≤ MAX_PLACE }
        ensures { IfOk result (GoesOn (data_of setup.now) self.entry) }
    {
        let Replay {
            rest: report,
            version: before,
            mut deeds,
            last,
            mut owed,
            mut sends,
            mut job_sends,
        } = self;
        let next = next_entry(alloc, setup, &before, &mut deeds, &last, report)?;
        let Some((answered, rest)) = next else {
            return Ok(None);
        };
        let Answered { entry, version } = answered;
        let last = Some(entry.moment());
        add_of_entry(&mut sends, &entry.what)?;
        let fits = do_jobs(
            alloc,
            setup,
            &version,
            entry,
            rest.len(),
            &mut owed,
            &mut job_sends,
        )?;
        if !fits {
            return Ok(None);
        }
        Ok(Some(Replay {
            rest,
            version,
            deeds,
            last,
            owed,
            sends,
            job_sends,
        }))
    }

    // Goes on to the last entry of the segment.
    pub(crate) fn run(self, alloc: Global, setup: &Setup) -> Result<Option<Replay<'a>>, NoMemory>
        requires sincere { ⟦<Catalogue as Sincere>⟧.sincere setup.now.catalogue }
        requires sound { IsSoundVersion (data_of setup.now) (version_at self) }
        requires valid { All (λ queue. All IsValid queue) self.queues }
        requires lanes { length self.queues ≤ MAX_LANES }
        requires room { self.state.place + commands_left self.queues ≤ MAX_PLACE }
        requires fresh { IsFresh self }
        ensures { IfOk result (EndsAt (data_of setup.now) self.entry) }
    {
        let mut replay = self;
        while !replay.deeds.are_done() {
            let Some(next) = replay.step(alloc, setup)? else {
                return Ok(None);
            };
            replay = next;
        }
        Ok(Some(replay))
    }
}
