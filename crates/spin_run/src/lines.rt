//! The lines of a segment's part of the report.

ghost use Rattle.std.specs.Prelude.{◌≡◌, ◌≤◌, ◌++◌, ◌∷◌, [], map, length, OnOk, All};
ghost use Rattle.std.specs.List.{flat_map};
ghost use Rattle.spin_text.specs.Words.{ended, text_of};
ghost use Rattle.spin_endpoint.specs.declared.ends.TheConstants.{MAX_ENDPOINTS};
ghost use Rattle.spin_report.specs.Lines.{job_line};
ghost use Rattle.spin_report.specs.Histories.{retire_line, segment_line, lost_line, lost_lines};
ghost use Rattle.spin_run.specs.Segments.{jobs_seen};
ghost use Rattle.spin_run.specs.Inner.Marks.{IsInTrails, line_in};
ghost use Rattle.spin_run.specs.Inner.Lining.{retired_as, if_lost, counts_to};

use crate::trail::{EntryIndex, Trail};
use crate::writing::TextLines;
use spin_endpoint::Lost;
use spin_proto::{Job, Reply};
use spin_report::{job_text, lost_text, retire_text, segment_text};
use spin_values::{NoMemory, Octets};

// Adds the line of each endpoint that is retired, with whether one stood under its name.
pub(crate) fn add_retired(
    lines: &mut TextLines,
    numbers: &[u16],
    stood: &[bool],
) -> Result<(), NoMemory>
    requires room { length stood.now ≡ length numbers.now }
    ensures { OnOk result (lines.new
        ≡ lines.old ++ map ended (map retire_line (retired_as numbers.now stood.now))) }
{
    for at in 0..numbers.len() {
        let mut line = Octets::new(lines.allocator());
        retire_text(numbers[at], stood[at], &mut line)?;
        lines.push(line)?;
    }
    Ok(())
}

// Adds the line that begins a segment's entries.
pub(crate) fn add_segment(lines: &mut TextLines, number: usize, start: u16) -> Result<(), NoMemory>
    ensures { OnOk result (lines.new ≡ lines.old ++ ended (segment_line number start) ∷ []) }
{
    let mut line = Octets::new(lines.allocator());
    segment_text(number, start, &mut line)?;
    lines.push(line)
}

// Appends the line of a mark, from its lane's trail.
fn put_line(text: &mut Octets, trails: &[Trail], mark: &EntryIndex) -> Result<(), NoMemory>
    requires lies { IsInTrails trails.now mark.now }
    ensures { OnOk result (text.new ≡ text.old ++ line_in trails.now mark.now) }
{
    let lines = trails[usize::from(mark.lane)].text.as_slice();
    text.extend_from_slice(mark.text.of(lines))
}

// Appends the lines of entries, of which these are the marks.
pub(crate) fn put_entries(
    text: &mut Octets,
    trails: &[Trail],
    marks: &[EntryIndex],
) -> Result<(), NoMemory>
    requires lie { All (IsInTrails trails.now) marks.now }
    ensures { OnOk result (text.new ≡ text.old ++ flat_map (line_in trails.now) marks.now) }
{
    for mark in marks {
        put_line(text, trails, mark)?;
    }
    Ok(())
}

// Appends the lines of jobs with their replies.
pub(crate) fn put_jobs(text: &mut Octets, jobs: &[Job], replies: &[Reply]) -> Result<(), NoMemory>
    requires room { length replies.now ≡ length jobs.now }
    ensures { OnOk result (text.new
        ≡ text.old ++ text_of (map job_line (jobs_seen jobs.now replies.now))) }
{
    for at in 0..jobs.len() {
        job_text(&jobs[at], &replies[at], text)?;
    }
    Ok(())
}

// Appends the line of an endpoint's lost sends, if there are some.
fn put_count(text: &mut Octets, number: u8, count: u64) -> Result<(), NoMemory>
    ensures { OnOk result (text.new ≡ text.old ++ text_of (map lost_line (if_lost number count))) }
{
    if count == 0 {
        return Ok(());
    }
    lost_text(number, count, text)
}

// Appends the line of each of so many endpoints to which sends were lost.
pub(crate) fn put_lost(text: &mut Octets, lost: &Lost, endpoints: u8) -> Result<(), NoMemory>
    requires few { endpoints ≤ MAX_ENDPOINTS }
    ensures { OnOk result (text.new ≡ text.old ++ text_of (lost_lines (counts_to lost.now endpoints))) }
{
    for number in 0..endpoints {
        put_count(text, number, lost.to(number))?;
    }
    Ok(())
}
