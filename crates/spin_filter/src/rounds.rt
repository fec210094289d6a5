//! The lines of a filter's script: whether it is one, and which event each record of a round is raised as.

ghost use Rattle.std.specs.Prelude.{◌≡◌, ◌<◌, ◌++◌, [], All, Decides, length, replicate, IfErr, IfOk, OnOk};
ghost use Rattle.spin_script.specs.Scripts.{script_seen};
ghost use Rattle.spin_script.specs.Soundness.{lines_in};
ghost use Rattle.spin_filter.specs.Rounds.{turns_of, round_of, lane_of, IsSuitedAt, AreSuited, HasOneSegment};
ghost use Rattle.spin_filter.specs.Unsuited.{StopsLine, StopsLines, StopsScript, IsUnsuited};

use crate::stop::Stop;
use spin_script::{Line, Script, Segment};
use spin_values::NoMemory;
use spin_word::Work;
use std::alloc::Global;

// Appends the event once for each record that the packet line takes.
fn add_turns(round: &mut Vec<u8>, event: u8, count: u32) -> Result<(), NoMemory>
    ensures { OnOk result (round.new.items ≡ round.old.items ++ replicate count event) }
{
    for taken in 0..count {
        round.push(event)?;
    }
    Ok(())
}

// Adds a line to a round: its records, where it is a packet line. A command may stand before the first of these alone,
// and nothing else may stand there.
fn add_line(round: &mut Vec<u8>, lane: u8, line: &Line) -> Result<(), Stop>
    ensures added { OnOk result (round.new.items ≡ round.old.items ++ turns_of line.now.work) }
    ensures suited { OnOk result (IsSuitedAt lane round.old.items line.now) }
    ensures stop { IfErr result (StopsLine lane round.old.items line.now) }
{
    if line.lane != lane {
        return Err(Stop::Lane(line.number));
    }
    match &line.work {
        Work::Packet { event, count } => {
            add_turns(round, *event, *count)?;
            Ok(())
        }
        Work::Command(_) => {
            if !round.is_empty() {
                return Err(Stop::InTheWay(line.number));
            }
            Ok(())
        }
        Work::Deed(_) => Err(Stop::InTheWay(line.number)),
    }
}

// Adds the records of these lines, which that lane does, to a round. The first line of another lane is in the way, or
// the first that raises an event by itself, or is a command behind a line that takes records.
fn add_lines(round: &mut Vec<u8>, lane: u8, lines: &[Line]) -> Result<(), Stop>
    ensures added { OnOk result (round.new.items ≡ round.old.items ++ round_of lines.now) }
    ensures suited { OnOk result (AreSuited lane round.old.items lines.now) }
    ensures stop { IfErr result (StopsLines lane round.old.items lines.now) }
{
    for line in lines {
        add_line(round, lane, line)?;
    }
    Ok(())
}

// Whether no segment retires an endpoint.
fn retire_none(segments: &[Segment]) -> bool
    ensures { Decides result (All (λ segment. segment.retires ≡ []) segments.now) }
{
    segments.iter().all(|segment| segment.retires.is_empty())
}

// The lane lines of a script that has one segment and retires no endpoint.
pub(crate) fn lines_of(script: &Script) -> Result<&[Line], Stop>
    ensures one { IfOk result (λ lines. HasOneSegment script.now.segments) }
    ensures lines { IfOk result (λ lines. lines.now ≡ lines_in script.now.segments) }
    ensures stop { IfErr result (IsUnsuited (script_seen script.now)) }
{
    let segments = script.segments.as_slice();
    if !retire_none(segments) {
        return Err(Stop::Retires);
    }
    if segments.len() != 1 {
        return Err(Stop::Segments);
    }
    Ok(segments[0].lines.as_slice())
}

// The lane of the first of these lines.
fn lane_of(lines: &[Line]) -> u8
    ensures { result ≡ lane_of lines.now }
{
    match lines.first() {
        Some(line) => line.lane,
        None => 0,
    }
}

// The round of the lines of a script with one segment, or why they are none of a filter's script.
pub(crate) fn make_round(alloc: Global, lines: &[Line]) -> Result<Vec<u8>, Stop>
    ensures suited { IfOk result (λ _. AreSuited (lane_of lines.now) [] lines.now) }
    ensures round { IfOk result (λ round. round.items ≡ round_of lines.now) }
    ensures some { IfOk result (λ round. 0 < length round.items) }
    ensures stop { IfErr result (StopsScript lines.now) }
{
    let mut round = Vec::new(alloc);
    add_lines(&mut round, lane_of(lines), lines)?;
    if round.is_empty() {
        return Err(Stop::NoRecords);
    }
    Ok(round)
}
