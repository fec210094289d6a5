//! What the lanes of a segment are to do.

ghost use Rattle.std.specs.Prelude.{◌≡◌, ◌<◌, ◌≤◌, ◌^◌, ◌∷◌, [], Decides, All, MatchOption};
ghost use Rattle.std.specs.Prelude.{IfOk, OnOk, length, drop, replicate, slice_set};
ghost use Rattle.spin_word.specs.declared.command.TheConstants.{MAX_LANES};
ghost use Rattle.spin_script.specs.Soundness.{IsValidWork, commands_in};
ghost use Rattle.spin_report.specs.Segments.{asked_at, asked_in, wanted_by};
ghost use Rattle.spin_check.specs.Inner.Asks.{AreAsked, Adds, work_of, queue_of, with_ask};
ghost use Rattle.spin_check.specs.Inner.Asks.{commands_left, packets_at, whole_at};

use spin_report::split_records;
use spin_script::{Deed, Line, Work};
use spin_values::{Args, NoMemory, Octets};
use spin_word::Command;
use std::alloc::Global;
use std::collections::VecDeque;
use std::marker::Model;

// What a lane is to do at once.
#[derive(Drop)]
pub(crate) enum Asked {
    // To give a command.
    Command(Command),
    // To do a deed.
    Deed(Deed),
}

// What a lane is to do, by its line and its part of the line.
#[derive(Drop)]
pub(crate) struct Ask {
    pub(crate) lane: u8,
    pub(crate) line: u32,
    pub(crate) part: u32,
    pub(crate) asked: Asked,
}

// What each lane is still to do, in its order. Contracts see a list for each lane.
#[derive(Drop)]
pub(crate) struct Deeds {
    lanes: Vec<VecDeque<Ask>>,
}

impl Model for Deeds {
    ghost use Rattle.std.specs.Prelude.{List, map};
    ghost use Rattle.spin_check.specs.declared.deeds.Ask.{Ask};

    ghost Value = { List (List Ask) };

    ghost view = { λ d. map (λ queue. queue.items) d.lanes.items };
}

impl Deeds {
    // Nothing for so many lanes.
    fn none(alloc: Global, lanes: u8) -> Result<Deeds, NoMemory>
        ensures { IfOk result (λ deeds. deeds ≡ replicate lanes []) }
    {
        let mut queues = Vec::new(alloc);
        for _lane in 0..lanes {
            queues.push(VecDeque::new(alloc))?;
        }
        Ok(Deeds { lanes: queues })
    }

    // Adds what a lane is to do behind what it is to do already.
    fn add(&mut self, ask: Ask) -> Result<(), NoMemory>
        requires { ask.lane < length self.old }
        ensures { OnOk result (self.new ≡ with_ask ask self.old) }
    {
        let lane = ask.lane as usize;
        self.lanes[lane].push_back(ask)?;
        Ok(())
    }

    // Takes out what the lane is to do next.
    pub(crate) fn take_next(&mut self, lane: u8) -> Option<Ask>
        ensures { MatchOption result (queue_of lane self.old ≡ []) (λ ask.
            (lane < length self.old) × (queue_of lane self.old ≡ ask ∷ drop 1 (queue_of lane self.old))
            × (self.new ≡ slice_set self.old lane (drop 1 (queue_of lane self.old)))) }
    {
        let at = lane as usize;
        if at >= self.lanes.len() {
            return None;
        }
        self.lanes[at].pop_front()
    }

    // Whether no lane is to do anything more.
    pub(crate) fn are_done(&self) -> bool
        ensures { Decides result (All (λ queue. queue ≡ []) self.now) }
    {
        for queue in &self.lanes {
            if !queue.is_empty() {
                return false;
            }
        }
        true
    }

    // Adds a raise of the event with each of the records, by parts from 1 on.
    fn add_packets(
        &mut self,
        alloc: Global,
        line: &Line,
        event: u8,
        records: &[Octets],
    ) -> Result<(), NoMemory>
        requires lane { line.now.lane < length self.old }
        requires lanes { length self.old ≤ MAX_LANES }
        requires few { length records.now < 2 ^ 32 }
        ensures { OnOk result (Adds (packets_at line.now event 1 records.now) self.old self.new) }
    {
        let mut part = 0;
        for frame in records {
            part += 1;
            let args = Args::of_bytes(alloc, frame)?;
            self.add(Ask {
                lane: line.lane,
                line: line.number,
                part,
                asked: Asked::Deed(Deed::Raise { event, args }),
            })?;
        }
        Ok(())
    }

    // Adds what a line asks as its one deed.
    fn add_whole(&mut self, line: &Line, asked: Asked) -> Result<(), NoMemory>
        requires lane { line.now.lane < length self.old }
        requires lanes { length self.old ≤ MAX_LANES }
        requires valid { IsValidWork (work_of asked) }
        ensures { OnOk result (Adds (whole_at line.now (work_of asked)) self.old self.new) }
    {
        self.add(Ask {
            lane: line.lane,
            line: line.number,
            part: 0,
            asked,
        })
    }

    // Adds what a line asks with these records.
    fn add_line(&mut self, alloc: Global, line: &Line, records: &[Octets]) -> Result<(), NoMemory>
        requires lane { line.now.lane < length self.old }
        requires lanes { length self.old ≤ MAX_LANES }
        requires valid { IsValidWork line.now.work }
        requires few { length records.now < 2 ^ 32 }
        ensures { OnOk result (Adds (asked_at line.now records.now) self.old self.new) }
    {
        match &line.work {
            Work::Packet { event, .. } => self.add_packets(alloc, line, *event, records),
            Work::Command(command) => self.add_whole(line, Asked::Command(*command)),
            Work::Deed(deed) => {
                let deed = deed.copy()?;
                self.add_whole(line, Asked::Deed(deed))
            }
        }
    }
}

// What so many lanes are to do by these lines, where these are the records left, and the records that are left then.
// It takes time linear in the lines and in the bytes of the records that they take.
pub(crate) fn deeds_of<'a>(
    alloc: Global,
    lanes: u8,
    lines: &[Line],
    records: &'a [Octets],
) -> Result<(Deeds, &'a [Octets]), NoMemory>
    requires few { lanes ≤ MAX_LANES }
    requires on_lanes { All (λ line. line.lane < lanes) lines.now }
    requires valid { All (λ line. IsValidWork line.work) lines.now }
    ensures deeds { IfOk result (λ r. AreAsked lanes (asked_in lines.now records.now) r.0) }
    ensures commands { IfOk result (λ r. commands_left r.0 ≡ commands_in lines.now) }
    ensures left { IfOk result (λ r. r.1.now ≡ drop (wanted_by lines.now) records.now) }
{
    let mut deeds = Deeds::none(alloc, lanes)?;
    let mut left = records;
    for line in lines {
        let (taken, others) = split_records(&line.work, left);
        deeds.add_line(alloc, line, taken)?;
        left = others;
    }
    Ok((deeds, left))
}
