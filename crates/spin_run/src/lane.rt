//! One lane of a segment.

ghost use Rattle.std.specs.Prelude.{◌≡◌, ◌+◌, ◌<◌, ◌≤◌, List, [], ◌∷◌, length, IsTrue, IfOk, OnOk, OnErr, None};
ghost use Rattle.spin_word.specs.Commands.{is_command};
ghost use Rattle.spin_values.specs.declared.values.Value.TheVariants as value;
ghost use Rattle.spin_word.specs.declared.work.Work.TheVariants as work;
ghost use Rattle.spin_table.specs.SetupOf.{data_of};
ghost use Rattle.spin_seat.specs.Seats.{IsSeat};
ghost use Rattle.spin_script.specs.Soundness.{IsValidWork};
ghost use Rattle.spin_script.specs.Segments.{IsOfLane};
ghost use Rattle.spin_script.specs.declared.lanes.TheConstants.{MAX_DEEDS};
ghost use Rattle.spin_report.specs.Segments.{asked_at, asked_in, asked_of_lane};
ghost use Rattle.spin_report.specs.declared.entry.Entry.{Entry};
ghost use Rattle.spin_report.specs.declared.entry.What.TheVariants as what;
ghost use Rattle.spin_run.specs.Lanes.{HasRunLane, IsFresh};
ghost use Rattle.spin_run.specs.Segments.{IsAtRest, IsFitSegment};
ghost use Rattle.spin_run.specs.Inner.Answering.{Answers, Comes, EndsShort, Stays, asked_alone, asked_packets};

use crate::copying::keep;
use crate::jobs_left::leave_jobs;
use crate::trail::Trail;
use spin_code::Sincere;
use spin_objects::Catalogue;
use spin_outside::Gate;
use spin_pcap::Frames;
use spin_proto::{Jobs, ReplyBuffer};
use spin_report::{Entries, EntryView, LentWhat, WhatView, split_records};
use spin_script::{Line, Segment};
use spin_seat::{Hub, Judged, Seat, SeatFault};
use spin_values::{Args, NoMemory, Octets, Value};
use spin_word::{Command, Deed, Work};
use std::alloc::Global;

/// A lane: its seat, and what came of its deeds in a segment.
#[derive(Drop)]
pub struct Lane {
    /// The seat that it calls.
    pub seat: Seat,
    /// What the entries that its calls have answered leave, in their order.
    pub trail: Trail,
    /// The jobs that these entries leave, each with its version.
    pub jobs: Jobs,
    /// Why it ended before its last deed, if it did.
    pub stop: Option<SeatFault>,
    /// The entries themselves, in their order, where the lane keeps them.
    pub entries: Option<Entries>,
}

// What a lane does its deeds by: its memory, the hub of its seat, and the gate that it passes before each.
#[derive(Drop)]
struct Answering<'a, G> {
    alloc: Global,
    hub: &'a Hub,
    gate: &'a G,
}

// A deed, and what it came to, which the buffer has.
fn answered<'a>(deed: &'a Deed, buffer: &'a ReplyBuffer) -> WhatView<'a>
    ensures { result ≡ what.Deed deed.now buffer.now }
{
    let reply = buffer.view();
    let lent = LentWhat::Deed(deed, reply);
    WhatView { lent }
}

// These bytes as the one argument, in the room of arguments that are done with.
fn refilled(alloc: Global, args: Args, frame: &[u8]) -> Result<Args, NoMemory>
    ensures { IfOk result (λ refilled. refilled ≡ value.Bytes frame.now ∷ []) }
{
    let mut args = args;
    let mut bytes = match args.pop() {
        Some(Value::Bytes(bytes)) => bytes,
        _ => Octets::new(alloc),
    };
    args.clear();
    bytes.clear();
    bytes.extend_from_slice(frame)?;
    args.push(Value::Bytes(bytes))?;
    Ok(args)
}

// The arguments of a deed that is done.
fn args_of(deed: Deed) -> Args {
    match deed {
        Deed::Raise { args, .. } | Deed::Later { args, .. } => args,
    }
}

impl Lane {
    /// A lane of this seat, which has answered nothing.
    pub fn new(alloc: Global, seat: Seat) -> Lane
        ensures seat { result.seat ≡ seat }
        ensures fresh { IsFresh result }
        ensures kept { result.entries ≡ None }
    {
        Lane {
            seat,
            trail: Trail::new(alloc),
            jobs: Jobs::new(alloc),
            stop: None,
            entries: None,
        }
    }

    /// Does, in the order of the text, the deeds of the segment's lines that name this lane, and passes the gate before
    /// each. It ends after the last deed or at the first fault, which it keeps as its stop, want of memory among them.
    ///
    /// The frames are the records that the segment's packet lines take, in the order of the text and whatever the
    /// lane: this lane skips those of the others' lines. Nothing is known of the other lanes; where this one had
    /// memory, its trail and its jobs are those of the entries that answer its own deeds, which it keeps, too, if it keeps
    /// entries. Where it had none, its seat has answered the deeds before the one at which it ended. If that is a command,
    /// it has its verdict, and there was no memory for the entry; or it has none, and then none but a conflict would refuse
    /// it where the seat has applied all that it read.
    ///
    /// It waits for nobody. Each line is made as soon as its deed is answered. No deed is copied but for its arguments,
    /// which handlers may change, and for an entry that is kept; a frame's bytes are copied before that into the argument
    /// of its raise.
    pub fn run<G: Gate>(
        &mut self,
        alloc: Global,
        hub: &Hub,
        segment: &Segment,
        frames: &Frames,
        gate: &G,
    )
        requires sincere { ⟦<Catalogue as Sincere>⟧.sincere hub.now.setup.catalogue }
        requires ready { let d = data_of hub.now.setup in
            let seat = self.old.seat in
            IsAtRest d hub.now.log.id hub.now.log.lanes seat.base seat.pen.front self.old }
        requires lines { IsFitSegment hub.now.log.lanes segment.now.lines }
        ensures { let asked = asked_in segment.now.lines frames.now in
            (entries : List Entry) × HasRunLane (data_of hub.now.setup) asked self.old self.new entries }
    {
        self.stop = self.answer_lines(alloc, hub, segment, frames, gate).err();
    }

    // The same, with the fault that it ended at as its answer.
    fn answer_lines<G: Gate>(
        &mut self,
        alloc: Global,
        hub: &Hub,
        segment: &Segment,
        frames: &Frames,
        gate: &G,
    ) -> Result<(), SeatFault>
        requires sincere { ⟦<Catalogue as Sincere>⟧.sincere hub.now.setup.catalogue }
        requires ready { let d = data_of hub.now.setup in
            let seat = self.old.seat in
            IsAtRest d hub.now.log.id hub.now.log.lanes seat.base seat.pen.front self.old }
        requires lines { IsFitSegment hub.now.log.lanes segment.now.lines }
        ensures stays { Stays (data_of hub.now.setup) self.old self.new }
        ensures comes { let asked = asked_in segment.now.lines frames.now in
            let own = asked_of_lane self.old.seat.pen.lane asked in
            Comes (data_of hub.now.setup) own self.old result self.new }
    {
        let by = Answering { alloc, hub, gate };
        let mut buffer = ReplyBuffer::new(alloc);
        let mut left = frames.as_slice();
        for line in segment.lines.as_slice() {
            let (records, others) = split_records(&line.work, left);
            left = others;
            if line.lane == self.seat.lane() {
                self.answer_line(&by, line, records, &mut buffer)?;
            }
        }
        Ok(())
    }

    // Does the deeds of a line, whose records these are.
    fn answer_line<G: Gate>(
        &mut self,
        by: &Answering<G>,
        line: &Line,
        records: &[Octets],
        buffer: &mut ReplyBuffer,
    ) -> Result<(), SeatFault>
        requires sincere { ⟦<Catalogue as Sincere>⟧.sincere by.now.hub.now.setup.catalogue }
        requires log { self.old.seat.pen.log ≡ by.now.hub.now.log.id }
        requires seat { IsSeat (data_of by.now.hub.now.setup) self.old.seat }
        requires lane { line.now.lane ≡ self.old.seat.pen.lane }
        requires own { IsOfLane line.now.lane line.now.work }
        requires valid { IsValidWork line.now.work }
        requires few { length self.old.trail.marks + length (asked_at line.now records.now) ≤ MAX_DEEDS }
        ensures stays { Stays (data_of by.now.hub.now.setup) self.old self.new }
        ensures comes { let asked = asked_at line.now records.now in
            Comes (data_of by.now.hub.now.setup) asked self.old result self.new }
    {
        match &line.work {
            Work::Command(command) => self.answer_command(by, line.number, command),
            Work::Deed(deed) => Ok(self.answer_deed(by, line.number, 0, deed, buffer)?),
            Work::Packet { event, .. } => {
                Ok(self.answer_packets(by, line.number, *event, records, buffer)?)
            }
        }
    }

    // Gives a command.
    fn answer_command<G: Gate>(
        &mut self,
        by: &Answering<G>,
        line: u32,
        command: &Command,
    ) -> Result<(), SeatFault>
        requires sincere { ⟦<Catalogue as Sincere>⟧.sincere by.now.hub.now.setup.catalogue }
        requires log { self.old.seat.pen.log ≡ by.now.hub.now.log.id }
        requires seat { IsSeat (data_of by.now.hub.now.setup) self.old.seat }
        requires valid { IsTrue (is_command command.now) }
        requires lane { command.now.lane ≡ self.old.seat.pen.lane }
        requires few { length self.old.trail.marks < MAX_DEEDS }
        ensures stays { Stays (data_of by.now.hub.now.setup) self.old self.new }
        ensures comes { let d = data_of by.now.hub.now.setup in
            let asked = asked_alone self.old.seat.pen.lane line 0 (work.Command command.now) in
            Comes d asked self.old result self.new }
    {
        let lane = self.seat.lane();
        by.gate.pass(lane, self.trail.marks.len() as u32);
        let Judged { place, verdict } = self.seat.command(by.alloc, by.hub, command)?;
        let lent = LentWhat::Command(command, &verdict);
        let what = WhatView { lent };
        let entry = EntryView {
            place,
            lane,
            line,
            part: 0,
            what,
        };
        keep(by.alloc, &mut self.entries, &entry)?;
        self.trail.add(&entry)?;
        Ok(())
    }

    // Raises an event with each of these records.
    fn answer_packets<G: Gate>(
        &mut self,
        by: &Answering<G>,
        line: u32,
        event: u8,
        records: &[Octets],
        buffer: &mut ReplyBuffer,
    ) -> Result<(), NoMemory>
        requires sincere { ⟦<Catalogue as Sincere>⟧.sincere by.now.hub.now.setup.catalogue }
        requires log { self.old.seat.pen.log ≡ by.now.hub.now.log.id }
        requires seat { IsSeat (data_of by.now.hub.now.setup) self.old.seat }
        requires few { length self.old.trail.marks + length records.now ≤ MAX_DEEDS }
        ensures stays { Stays (data_of by.now.hub.now.setup) self.old self.new }
        ensures ok { let d = data_of by.now.hub.now.setup in
            let asked = asked_packets self.old.seat.pen.lane line event 1 records.now in
            OnOk result (Answers d asked self.old self.new) }
        ensures err { let d = data_of by.now.hub.now.setup in
            let asked = asked_packets self.old.seat.pen.lane line event 1 records.now in
            OnErr result (EndsShort d asked self.old self.new) }
    {
        let mut part = 0;
        let mut room = Args::new(by.alloc);
        for frame in records {
            part += 1;
            let args = refilled(by.alloc, room, frame)?;
            let deed = Deed::Raise { event, args };
            self.answer_deed(by, line, part, &deed, buffer)?;
            room = args_of(deed);
        }
        Ok(())
    }

    // Does a deed.
    fn answer_deed<G: Gate>(
        &mut self,
        by: &Answering<G>,
        line: u32,
        part: u32,
        deed: &Deed,
        buffer: &mut ReplyBuffer,
    ) -> Result<(), NoMemory>
        requires sincere { ⟦<Catalogue as Sincere>⟧.sincere by.now.hub.now.setup.catalogue }
        requires log { self.old.seat.pen.log ≡ by.now.hub.now.log.id }
        requires seat { IsSeat (data_of by.now.hub.now.setup) self.old.seat }
        requires few { length self.old.trail.marks < MAX_DEEDS }
        ensures stays { Stays (data_of by.now.hub.now.setup) self.old self.new }
        ensures ok { let d = data_of by.now.hub.now.setup in
            let asked = asked_alone self.old.seat.pen.lane line part (work.Deed deed.now) in
            OnOk result (Answers d asked self.old self.new) }
    {
        let lane = self.seat.lane();
        by.gate.pass(lane, self.trail.marks.len() as u32);
        let place = self.seat.raise_into(by.alloc, by.hub, deed, buffer)?;
        let what = answered(deed, buffer);
        let entry = EntryView {
            place,
            lane,
            line,
            part,
            what,
        };
        leave_jobs(&mut self.jobs, &entry, &self.seat)?;
        keep(by.alloc, &mut self.entries, &entry)?;
        self.trail.add(&entry)
    }
}
