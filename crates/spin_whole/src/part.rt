//! What a segment comes to, deed after deed, the lanes one after another.

ghost use Rattle.std.specs.Prelude.{◌≡◌, ◌<◌, ◌≤◌, ◌+◌, ◌^◌, [], All, IsTrue, IfOk, OnOk, length};
ghost use Rattle.std.specs.Arc.{arc_value};
ghost use Rattle.spin_word.specs.Commands.{is_command};
ghost use Rattle.spin_word.specs.declared.command.TheConstants.{MAX_PLACE};
ghost use Rattle.spin_word.specs.declared.work.Work.TheVariants as work;
ghost use Rattle.spin_table.specs.SetupOf.{data_of};
ghost use Rattle.spin_table.specs.declared.refusal.Verdicted.TheVariants as verdicted;
ghost use Rattle.spin_table.specs.Soundness.{IsSoundVersion};
ghost use Rattle.spin_table.specs.Steps.{IsStep};
ghost use Rattle.spin_proto.specs.Replies.{BelongsTo};
ghost use Rattle.spin_script.specs.Soundness.{IsValidWork};
ghost use Rattle.spin_report.specs.declared.entry.What.TheVariants as what;
ghost use Rattle.spin_report.specs.Jobs.{answer_calls};
ghost use Rattle.spin_report.specs.Segments.{asked_at, asked_in, asked_of_lane};
ghost use Rattle.spin_whole.specs.Inner.Parts.{AddsEntry, Answers, state_of, alone, packets, by_lane, commands_asked};

use crate::jobs::do_jobs;
use crate::ran::Sendings;
use crate::sends::add_steps;
use spin_code::Sincere;
use spin_objects::Catalogue;
use spin_proto::{Reply, path};
use spin_report::{EntryView, LentWhat, WhatView, split_records, view_text};
use spin_script::Line;
use spin_table::{Refusal, Setup, StepFault, Verdicted, Version};
use spin_values::{Args, NoMemory, Octets};
use spin_word::{Command, Deed, Work};
use std::alloc::Global;
use std::sync::Arc;

// What a segment has come to so far.
#[derive(Drop)]
pub(crate) struct Part {
    pub(crate) version: Arc<Version>,
    // The lines of its entries.
    pub(crate) text: Octets,
    // What entries send.
    pub(crate) sends: Sendings,
    // The lines of its jobs, which stand behind those of the entries.
    pub(crate) owed: Octets,
    // What jobs send.
    pub(crate) job_sends: Sendings,
}

// What becomes of a command: its verdict, and the version after it.
#[derive(Drop)]
struct Judged {
    verdict: Verdicted,
    version: Arc<Version>,
}

// A deed, and what it came to.
fn answered<'a>(deed: &'a Deed, reply: &'a Reply) -> WhatView<'a>
    ensures { result ≡ what.Deed deed.now reply.now }
{
    let reply = reply.view();
    let lent = LentWhat::Deed(deed, reply);
    WhatView { lent }
}

// What becomes of a command that is refused, which leaves the version.
fn refused(
    _setup: &Setup,
    version: &Arc<Version>,
    _command: &Command,
    refusal: Refusal,
) -> Result<Judged, NoMemory>
    requires step { let d = data_of _setup.now in
        IsStep d (arc_value version.now).state _command.now (verdicted.Refused refusal) (arc_value version.now).state }
    ensures step { let d = data_of _setup.now in
        IfOk result (λ judged. IsStep d (arc_value version.now).state _command.now judged.verdict (arc_value judged.version).state) }
    ensures same { IfOk result (λ judged. arc_value judged.version ≡ arc_value version.now) }
{
    Ok(Judged {
        verdict: Verdicted::Refused(refusal),
        version: Arc::try_clone(version)?,
    })
}

// What becomes of a command at the version.
fn judge(
    alloc: Global,
    setup: &Setup,
    version: &Arc<Version>,
    command: &Command,
) -> Result<Judged, NoMemory>
    requires sincere { ⟦<Catalogue as Sincere>⟧.sincere setup.now.catalogue }
    requires valid { IsTrue (is_command command.now) }
    requires room { (arc_value version.now).state.place < MAX_PLACE }
    requires sound { IsSoundVersion (data_of setup.now) (arc_value version.now) }
    ensures step { let d = data_of setup.now in
        IfOk result (λ judged. IsStep d (arc_value version.now).state command.now judged.verdict (arc_value judged.version).state) }
    ensures sound { IfOk result (λ judged. IsSoundVersion (data_of setup.now) (arc_value judged.version)) }
{
    match version.next(alloc, setup, command) {
        Ok(next) => Ok(Judged {
            verdict: Verdicted::Accepted,
            version: Arc::new(alloc, next)?,
        }),
        Err(StepFault::Refused(refusal)) => refused(setup, version, command, refusal),
        Err(StepFault::NoMemory) => Err(NoMemory),
    }
}

impl Part {
    // Nothing, at this version.
    pub(crate) fn new(alloc: Global, version: Arc<Version>) -> Part
        ensures version { result.version ≡ version }
        ensures text { result.text ≡ [] }
        ensures sends { result.sends ≡ [] }
        ensures owed { result.owed ≡ [] }
        ensures job_sends { result.job_sends ≡ [] }
    {
        Part {
            version,
            text: Octets::new(alloc),
            sends: Sendings::new(alloc),
            owed: Octets::new(alloc),
            job_sends: Sendings::new(alloc),
        }
    }

    // Adds an entry, at the version that it leads to, and does its jobs.
    fn add(&mut self, alloc: Global, setup: &Setup, entry: &EntryView<'_>) -> Result<(), NoMemory>
        requires sincere { ⟦<Catalogue as Sincere>⟧.sincere setup.now.catalogue }
        requires sound { IsSoundVersion (data_of setup.now) (arc_value self.old.version) }
        requires belong { All (BelongsTo (state_of self.old)) (answer_calls entry.now.what) }
        requires few { length (answer_calls entry.now.what) < 2 ^ 32 }
        ensures { OnOk result (AddsEntry (data_of setup.now) entry.now self.old self.new) }
    {
        view_text(entry, &mut self.text)?;
        add_steps(&mut self.sends, entry.what.steps())?;
        do_jobs(
            alloc,
            setup,
            &self.version,
            entry,
            &mut self.owed,
            &mut self.job_sends,
        )
    }

    // Gives a command.
    fn answer_command(
        &mut self,
        alloc: Global,
        setup: &Setup,
        line: &Line,
        command: &Command,
    ) -> Result<(), NoMemory>
        requires sincere { ⟦<Catalogue as Sincere>⟧.sincere setup.now.catalogue }
        requires valid { IsTrue (is_command command.now) }
        requires room { (state_of self.old).place < MAX_PLACE }
        requires sound { IsSoundVersion (data_of setup.now) (arc_value self.old.version) }
        ensures answers { let asked = alone line.now 0 (work.Command command.now) in
            OnOk result (Answers (data_of setup.now) asked self.old self.new) }
        ensures sound { OnOk result (IsSoundVersion (data_of setup.now) (arc_value self.new.version)) }
    {
        let Judged { verdict, version } = judge(alloc, setup, &self.version, command)?;
        self.version = version;
        let lent = LentWhat::Command(command, &verdict);
        let entry = EntryView {
            place: self.version.place(),
            lane: line.lane,
            line: line.number,
            part: 0,
            what: WhatView { lent },
        };
        self.add(alloc, setup, &entry)
    }

    // Does a deed, which is that part of the line.
    fn answer_deed(
        &mut self,
        alloc: Global,
        setup: &Setup,
        line: &Line,
        part: u32,
        deed: &Deed,
    ) -> Result<(), NoMemory>
        requires sincere { ⟦<Catalogue as Sincere>⟧.sincere setup.now.catalogue }
        requires sound { IsSoundVersion (data_of setup.now) (arc_value self.old.version) }
        ensures answers { let asked = alone line.now part (work.Deed deed.now) in
            OnOk result (Answers (data_of setup.now) asked self.old self.new) }
        ensures sound { OnOk result (IsSoundVersion (data_of setup.now) (arc_value self.new.version)) }
    {
        let reply = path(alloc, &self.version, setup, deed)?;
        let what = answered(deed, &reply);
        let entry = EntryView {
            place: self.version.place(),
            lane: line.lane,
            line: line.number,
            part,
            what,
        };
        self.add(alloc, setup, &entry)
    }

    // Raises an event with each of these records, by parts from 1 on.
    fn answer_packets(
        &mut self,
        alloc: Global,
        setup: &Setup,
        line: &Line,
        event: u8,
        records: &[Octets],
    ) -> Result<(), NoMemory>
        requires sincere { ⟦<Catalogue as Sincere>⟧.sincere setup.now.catalogue }
        requires sound { IsSoundVersion (data_of setup.now) (arc_value self.old.version) }
        requires few { length records.now < 2 ^ 32 }
        ensures answers { let asked = packets line.now event 1 records.now in
            OnOk result (Answers (data_of setup.now) asked self.old self.new) }
        ensures sound { OnOk result (IsSoundVersion (data_of setup.now) (arc_value self.new.version)) }
    {
        let mut part = 0;
        for frame in records {
            part += 1;
            let args = Args::of_bytes(alloc, frame)?;
            let deed = Deed::Raise { event, args };
            self.answer_deed(alloc, setup, line, part, &deed)?;
        }
        Ok(())
    }

    // Does the deeds of a line, whose records these are.
    fn answer_line(
        &mut self,
        alloc: Global,
        setup: &Setup,
        line: &Line,
        records: &[Octets],
    ) -> Result<(), NoMemory>
        requires sincere { ⟦<Catalogue as Sincere>⟧.sincere setup.now.catalogue }
        requires sound { IsSoundVersion (data_of setup.now) (arc_value self.old.version) }
        requires valid { IsValidWork line.now.work }
        requires room { let asked = asked_at line.now records.now in
            (state_of self.old).place + commands_asked asked ≤ MAX_PLACE }
        requires few { length records.now < 2 ^ 32 }
        ensures answers { let asked = asked_at line.now records.now in
            OnOk result (Answers (data_of setup.now) asked self.old self.new) }
        ensures sound { OnOk result (IsSoundVersion (data_of setup.now) (arc_value self.new.version)) }
    {
        match &line.work {
            Work::Command(command) => self.answer_command(alloc, setup, line, command),
            Work::Deed(deed) => self.answer_deed(alloc, setup, line, 0, deed),
            Work::Packet { event, .. } => {
                self.answer_packets(alloc, setup, line, *event, records)
            }
        }
    }

    // Does the deeds of the lines that name a lane, where these are the records left for all of the lines.
    fn answer_lane(
        &mut self,
        alloc: Global,
        setup: &Setup,
        lane: u8,
        lines: &[Line],
        records: &[Octets],
    ) -> Result<(), NoMemory>
        requires sincere { ⟦<Catalogue as Sincere>⟧.sincere setup.now.catalogue }
        requires sound { IsSoundVersion (data_of setup.now) (arc_value self.old.version) }
        requires valid { All (λ line. IsValidWork line.work) lines.now }
        requires room { let asked = asked_of_lane lane (asked_in lines.now records.now) in
            (state_of self.old).place + commands_asked asked ≤ MAX_PLACE }
        ensures answers { let asked = asked_of_lane lane (asked_in lines.now records.now) in
            OnOk result (Answers (data_of setup.now) asked self.old self.new) }
        ensures sound { OnOk result (IsSoundVersion (data_of setup.now) (arc_value self.new.version)) }
    {
        let mut left = records;
        for line in lines {
            let (taken, others) = split_records(&line.work, left);
            left = others;
            if line.lane == lane {
                self.answer_line(alloc, setup, line, taken)?;
            }
        }
        Ok(())
    }

    // Does all deeds of these lines, lane after lane, so many of them.
    pub(crate) fn answer_lanes(
        &mut self,
        alloc: Global,
        setup: &Setup,
        lanes: u8,
        lines: &[Line],
        records: &[Octets],
    ) -> Result<(), NoMemory>
        requires sincere { ⟦<Catalogue as Sincere>⟧.sincere setup.now.catalogue }
        requires sound { IsSoundVersion (data_of setup.now) (arc_value self.old.version) }
        requires valid { All (λ line. IsValidWork line.work) lines.now }
        requires room { let asked = by_lane lanes (asked_in lines.now records.now) in
            (state_of self.old).place + commands_asked asked ≤ MAX_PLACE }
        ensures answers { let asked = by_lane lanes (asked_in lines.now records.now) in
            OnOk result (Answers (data_of setup.now) asked self.old self.new) }
        ensures sound { OnOk result (IsSoundVersion (data_of setup.now) (arc_value self.new.version)) }
    {
        for lane in 0..lanes {
            self.answer_lane(alloc, setup, lane, lines, records)?;
        }
        Ok(())
    }
}
