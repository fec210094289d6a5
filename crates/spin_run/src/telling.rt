//! What becomes of the segments of a run: a report of them, or a count.

ghost use Rattle.std.specs.Prelude.{◌≡◌, ◌<◌, ◌-◌, ◌^◌, ℕ, length, min, sum_by, take};
ghost use Rattle.std.specs.Prelude.{List, OnOk, IfOk, MatchResult, Option, None, Some};
ghost use Rattle.std.specs.Io.KnownBytes.{Appends};
ghost use Rattle.spin_outside.specs.Counts.{FailsByCount};
ghost use Rattle.spin_outside.specs.Seen.{SinkSeen};
ghost use Rattle.spin_text.specs.Words.{ended};
ghost use Rattle.spin_report.specs.declared.entry.Entry.{Entry};
ghost use Rattle.spin_report.specs.Histories.{first_line, end_line};
ghost use Rattle.spin_run.specs.Summaries.{Counts, counts_in};
ghost use Rattle.spin_run.specs.Inner.Parts.{AreEntriesOf, CanBeTold, part_text};
ghost use Rattle.spin_run.specs.Inner.Writing.{joined};
ghost use Rattle.spin_run.specs.Inner.Tallies.{TalliesOn, Tells, TellsByCount};

use crate::end::RunEnd;
use crate::lines::{add_segment, put_entries, put_jobs, put_lost};
use crate::segment::Woven;
use crate::tally::Tally;
use crate::trail::Trail;
use crate::writing::{TextLines, write_pieces};
use spin_endpoint::Lost;
use spin_outside::{Failed, Sink, write_all};
use spin_report::{CaptureCounts, end_text};
use spin_values::{NoMemory, Octets};
use std::alloc::Global;

// What a segment came to, as it is told.
#[derive(Drop)]
pub(crate) struct Part {
    // The lines of its retired endpoints.
    pub(crate) retired: TextLines,
    // Its number.
    pub(crate) number: usize,
    // How many commands were accepted when it began.
    pub(crate) start: u16,
    // What its lanes and jobs came to.
    pub(crate) woven: Woven,
    // How many of its sends were lost.
    pub(crate) lost: Lost,
    // How many endpoints are declared.
    pub(crate) endpoints: u8,
}

// What is told the segments of a run, one after another.
pub(crate) trait Telling {
    /// What contracts see of the sink of the report. What writes no report tells nothing of one.
    ghost seen: { Self → SinkSeen };

    /// What was counted so far, where it is counted.
    ghost counts: { Self → Option Counts };

    /// The name by which proofs know the reference that it holds, which no call changes.
    ghost reference: { Self → ℕ };

    // Begins.
    fn begin(&mut self) -> Result<(), Failed>
        ensures told { MatchResult result
            (λ _. Appends (seen self.old).told (seen self.new).told (ended first_line))
            (λ _. (n : ℕ) × (n < length (ended first_line))
            × Appends (seen self.old).told (seen self.new).told (take n (ended first_line))) }
        ensures counts { counts self.new ≡ counts self.old }
        ensures same { reference self.new ≡ reference self.old }
        ensures cause { FailsByCount (seen self.old).faults (seen self.new).faults result };

    // Tells what a segment came to.
    fn tell(&mut self, part: Part) -> Result<(), RunEnd>
        requires { CanBeTold part }
        ensures told { (entries : List Entry) → AreEntriesOf part entries
            → Tells (seen self.old) (seen self.new) (part_text part entries) result }
        ensures counts { (entries : List Entry) → AreEntriesOf part entries
            → OnOk result (TalliesOn (counts self.old) (counts self.new) (counts_in entries)) }
        ensures same { reference self.new ≡ reference self.old }
        ensures cause { TellsByCount (seen self.old).faults (seen self.new).faults result };

    // Ends, where so many commands were accepted in all, and this became of the capture.
    fn end(
        &mut self,
        alloc: Global,
        length: u16,
        capture: Option<CaptureCounts>,
    ) -> Result<(), RunEnd>
        ensures told { Tells (seen self.old) (seen self.new) (ended (end_line length capture)) result }
        ensures counts { OnOk result (counts self.new ≡ counts self.old) }
        ensures same { reference self.new ≡ reference self.old }
        ensures cause { TellsByCount (seen self.old).faults (seen self.new).faults result };
}

// Writes the segments to a sink, as a report.
#[derive(Drop)]
pub(crate) struct Report<'a, K: Sink> {
    // The sink.
    pub(crate) out: &'a mut K,
}

// How many bytes the lines of all entries have, for which there is room from the start, or the most that a count tells.
fn text_bytes(trails: &[Trail]) -> usize
    ensures { result ≡ min (sum_by (λ trail. length trail.text) trails.now) (2 ^ 64 - 1) }
{
    let mut bytes: usize = 0;
    for trail in trails {
        bytes = bytes.saturating_add(trail.text.len());
    }
    bytes
}

// The text of a segment's part of the report, in pieces: the lines of its retired endpoints, the line that begins it,
// and all that stands behind that, in one.
fn part_pieces(part: Part) -> Result<TextLines, NoMemory>
    requires { CanBeTold part }
    ensures { (entries : List Entry) → AreEntriesOf part entries
        → IfOk result (λ pieces. joined pieces ≡ part_text part entries) }
{
    let Part {
        retired: mut pieces,
        number,
        start,
        woven,
        lost,
        endpoints,
    } = part;
    add_segment(&mut pieces, number, start)?;
    let mut text = Octets::with_capacity(pieces.allocator(), text_bytes(&woven.trails))?;
    put_entries(&mut text, woven.trails.as_slice(), woven.marks.as_slice())?;
    put_jobs(&mut text, woven.jobs.as_slice(), woven.replies.as_slice())?;
    put_lost(&mut text, &lost, endpoints)?;
    pieces.push(text)?;
    Ok(pieces)
}

// The last line of a report.
fn last_line(alloc: Global, length: u16, capture: Option<CaptureCounts>) -> Result<Octets, NoMemory>
    ensures { IfOk result (λ line. line ≡ ended (end_line length capture)) }
{
    let mut line = Octets::new(alloc);
    end_text(length, capture, &mut line)?;
    Ok(line)
}

impl<K: Sink> Telling for Report<'_, K> {
    ghost seen = { λ r. K.seen r.out.now };

    ghost counts = { λ _. None };

    ghost reference = { λ r. r.out.ghost_name };

    fn begin(&mut self) -> Result<(), Failed> {
        write_all(self.out, b"report 1\n")
    }

    /// Makes the segment's text in memory, and then writes it: the line that begins it by one call, and all its
    /// entries, jobs and lost sends by another.
    fn tell(&mut self, part: Part) -> Result<(), RunEnd> {
        let pieces = part_pieces(part)?;
        match write_pieces(self.out, pieces.as_slice()) {
            Ok(()) => Ok(()),
            Err(_) => Err(RunEnd::WriteFault),
        }
    }

    /// Writes the last line, by one call.
    fn end(
        &mut self,
        alloc: Global,
        length: u16,
        capture: Option<CaptureCounts>,
    ) -> Result<(), RunEnd> {
        let line = last_line(alloc, length, capture)?;
        match write_all(self.out, line.as_slice()) {
            Ok(()) => Ok(()),
            Err(_) => Err(RunEnd::WriteFault),
        }
    }
}

impl Telling for Tally {
    ghost seen = { λ _. record { told = None; faults = 0 } };

    ghost counts = { λ t. Some t };

    ghost reference = { λ _. 0 };

    fn begin(&mut self) -> Result<(), Failed> {
        Ok(())
    }

    /// Counts the segment's entries.
    fn tell(&mut self, part: Part) -> Result<(), RunEnd> {
        self.add_marks(part.woven.marks.as_slice())?;
        Ok(())
    }

    fn end(
        &mut self,
        _alloc: Global,
        _length: u16,
        _capture: Option<CaptureCounts>,
    ) -> Result<(), RunEnd> {
        Ok(())
    }
}
