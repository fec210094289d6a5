//! The end of a run: the rest of the capture, and the last line.

ghost use Rattle.std.specs.Prelude.{◌≡◌, List, ℕ, [], Option, Result, OnOk};
ghost use Rattle.std.specs.Option.{option_map};
ghost use Rattle.spin_run.specs.Inner.Reading.{given_by, ReadsByCount};
ghost use Rattle.spin_run.specs.Inner.Ending.{GivesCounts, Finishes};
ghost use Rattle.spin_run.specs.Inner.Steps.{ResultCounts};
ghost use Rattle.spin_run.specs.Ends.{seen};
ghost use Rattle.spin_run.specs.Records.{HasRecords};

use crate::end::RunEnd;
use crate::records::read_rest;
use crate::telling::Telling;
use spin_outside::Source;
use spin_pcap::Reader;
use spin_report::CaptureCounts;
use std::alloc::Global;

// How many records were given.
fn taken(capture: &Option<Reader>) -> u32
    ensures { result ≡ given_by capture.now }
{
    match capture {
        None => 0,
        Some(reader) => reader.taken(),
    }
}

// Reads the capture to its end, and tells what became of it: none where there is none.
fn rest_counts<S: Source>(
    alloc: Global,
    capture: &mut Option<Reader>,
    source: &mut S,
) -> Result<Option<CaptureCounts>, RunEnd>
    ensures answer { HasRecords capture.old (S.seen source.old) (GivesCounts capture.old result) }
    ensures keep { (S.seen source.new).keep ≡ (S.seen source.old).keep }
    ensures cause { ReadsByCount (S.seen source.old).faults (S.seen source.new).faults result }
{
    if capture.is_none() {
        return Ok(None);
    }
    let used = taken(capture);
    let cut = read_rest(alloc, capture, source)?;
    let records = taken(capture);
    Ok(Some(CaptureCounts { records, used, cut }))
}

// Reads the capture to its end, and tells what became of it.
pub(crate) fn finish<S: Source, T: Telling>(
    alloc: Global,
    length: u16,
    capture: &mut Option<Reader>,
    source: &mut S,
    out: &mut T,
) -> Result<(), RunEnd>
    ensures answer { HasRecords capture.old (S.seen source.old)
        (Finishes length capture.old (T.seen out.old) (T.seen out.new) result) }
    ensures tally { OnOk result (T.counts out.new ≡ T.counts out.old) }
    ensures keep { (S.seen source.new).keep ≡ (S.seen source.old).keep }
    ensures same { T.reference out.new ≡ T.reference out.old }
    ensures counts { ResultCounts [] (seen (S.seen source.old) (T.seen out.old) [])
        (seen (S.seen source.new) (T.seen out.new) []) result }
{
    let counts = rest_counts(alloc, capture, source)?;
    out.end(alloc, length, counts)
}
