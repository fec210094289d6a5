//! The call that does what the words ask for.

ghost use Rattle.std.specs.Prelude.{◌≡◌, ◌<◌, ◌≤◌, [], bytes_eq, codes, length, position, IfOk, IfSome, MatchResult};
ghost use Rattle.spin_endpoint.specs.declared.ends.TheConstants.{MAX_ENDPOINTS};
ghost use Rattle.spin_word.specs.declared.command.TheConstants.{MAX_PLACE};
ghost use Rattle.spin_script.specs.Scripts.{script_seen};
ghost use Rattle.spin_script.specs.Segments.{IsOrderly};
ghost use Rattle.spin_script.specs.Soundness.{AreValid, command_lines};
ghost use Rattle.spin_script.specs.States.{natives_seen};
ghost use Rattle.spin_frames.specs.Written.{with_waiting};
ghost use Rattle.spin_filter.specs.Sending.{outlets_at};
ghost use Rattle.spin_outside.specs.Counts.{Rose};
ghost use Rattle.spin_filter.specs.declared.stop.Stop.TheVariants as stop;
ghost use Rattle.spinfilter.specs.Calls.{writer_of, around, IsHeaded, IsPassed, StopsPassing, IsStatus};

use crate::end::tell;
use crate::told::told;
use crate::words::Asked;
use spin_code::Sincere;
use spin_endpoint::{Ends, EndsSeen};
use spin_filter::{Filtered, Outlets, Stop, filter_captures};
use spin_frames::{FrameFile, file_header};
use spin_inputs::{script_of, stop};
use spin_objects::{Catalogue, Natives};
use spin_outside::{Shelf, Sink, write_all};
use spin_pcap::MAX_CAPTURED;
use spin_script::Script;
use spin_values::Text;
use std::alloc::Global;

// The name of the endpoint whose sends are written as a capture.
const WRITER: &[u8] = b"out0";

// Whether it is the name of the endpoint whose sends are written as a capture.
fn is_writer(name: &Text) -> bool
    ensures { result ≡ bytes_eq name.now (codes "out0") }
{
    name.as_slice() == WRITER
}

// The place of the first such name.
fn writer_place(names: &[Text]) -> Option<usize>
    ensures at { result ≡ position (λ name. bytes_eq name (codes "out0")) names.now }
    ensures there { IfSome result (λ at. at < length names.now) }
{
    names.iter().position(|name| is_writer(name))
}

// The number of the endpoint whose sends are written as a capture, if a file is named and the script has one.
fn writer_of(file: &Option<Text>, names: &[Text]) -> Option<u8>
    requires { length names.now ≤ MAX_ENDPOINTS }
    ensures { result ≡ writer_of file.now names.now }
{
    match file {
        Some(_) => match writer_place(names) {
            Some(place) => Some(place as u8),
            None => None,
        },
        None => None,
    }
}

// Puts the header of the capture that is written, if a file is named.
fn put_header<W: Sink + Drop>(name: &Option<Text>, file: &mut FrameFile<W>) -> Result<(), Stop>
    ensures { let before = with_waiting (W.seen file.old.sink) file.old.waiting in
        let after = with_waiting (W.seen file.new.sink) file.new.waiting in
        MatchResult result
        (λ _. IsHeaded name.now before after)
        (λ why. (why ≡ stop.WriteFault) × Rose before.faults after.faults) }
{
    match name {
        Some(_) => match file.put(&file_header(MAX_CAPTURED)) {
            Ok(()) => Ok(()),
            Err(_) => Err(Stop::WriteFault),
        },
        None => Ok(()),
    }
}

// Writes what waits, where a record was passed. A failure leaves the stop as it is.
fn settle<W: Sink + Drop>(file: &mut FrameFile<W>, is_begun: bool)
    ensures { (W.seen file.old.sink).faults ≤ (W.seen file.new.sink).faults }
{
    if is_begun {
        let _ = file.flush();
    }
}

// Passes the records of the captures, and writes the capture that is asked for.
fn pass<F: Shelf, W: Sink + Drop>(
    alloc: Global,
    asked: &Asked,
    script: &Script,
    shelf: &mut F,
    outlets: &mut Outlets<W>,
) -> Result<Filtered, Stop>
    requires sincere { ⟦<Catalogue as Sincere>⟧.sincere script.now.setup.catalogue }
    requires valid { AreValid script.now.segments }
    requires commands { command_lines script.now.segments ≤ MAX_PLACE }
    requires orderly { IsOrderly (script_seen script.now) }
    ensures passed { let before = outlets_at (⟦<Ends as EndsSeen>⟧.all outlets.old.ends)
        (with_waiting (W.seen outlets.old.file.sink) outlets.old.file.waiting) outlets.old.counts in
        let after = outlets_at (⟦<Ends as EndsSeen>⟧.all outlets.new.ends)
        (with_waiting (W.seen outlets.new.file.sink) outlets.new.file.waiting) outlets.new.counts in
        MatchResult result
        (IsPassed (script_seen script.now) asked.now (F.seen shelf.old).files before after)
        (StopsPassing (script_seen script.now) asked.now (F.seen shelf.old) (F.seen shelf.new) before after) }
    ensures flushed { IfOk result (λ _. outlets.new.file.waiting ≡ []) }
{
    put_header(&asked.file, &mut outlets.file)?;
    let capture = writer_of(&asked.file, script.endpoints.as_slice());
    let captures = asked.captures.as_slice();
    match filter_captures(alloc, script, captures, capture, shelf, outlets) {
        Ok(filtered) => match outlets.file.flush() {
            Ok(()) => Ok(filtered),
            Err(_) => Err(Stop::WriteFault),
        },
        Err(stop) => {
            settle(&mut outlets.file, outlets.counts.records > 0);
            Err(stop)
        }
    }
}

/// Does what the words ask for, and answers the exit status.
pub fn filter_as_asked<F: Shelf, K: Sink, W: Sink + Drop>(
    alloc: Global,
    asked: &Asked,
    natives: Natives,
    shelf: &mut F,
    out: &mut K,
    outlets: &mut Outlets<W>,
) -> u8
    requires sincere { ⟦<Natives as Sincere>⟧.sincere natives }
    ensures status { let before = outlets_at (⟦<Ends as EndsSeen>⟧.all outlets.old.ends)
        (with_waiting (W.seen outlets.old.file.sink) outlets.old.file.waiting) outlets.old.counts in
        let after = outlets_at (⟦<Ends as EndsSeen>⟧.all outlets.new.ends)
        (with_waiting (W.seen outlets.new.file.sink) outlets.new.file.waiting) outlets.new.counts in
        IsStatus (natives_seen natives) asked.now (around (F.seen shelf.old) (K.seen out.old) before)
        (around (F.seen shelf.new) (K.seen out.new) after) result }
    ensures flushed { result ≡ 0 → outlets.new.file.waiting ≡ [] }
{
    let script = match script_of(alloc, shelf, &asked.script, natives) {
        Ok(script) => script,
        Err(end) => return stop(out, end),
    };
    let filtered = match pass(alloc, asked, &script, shelf, outlets) {
        Ok(filtered) => filtered,
        Err(stop) => return tell(out, stop),
    };
    if !asked.counts {
        return 0;
    }
    match told(
        alloc,
        script.endpoints.as_slice(),
        filtered,
        &outlets.counts,
    ) {
        Ok(text) => match write_all(out, text.as_slice()) {
            Ok(()) => 0,
            Err(_) => tell(out, Stop::WriteFault),
        },
        Err(_) => tell(out, Stop::NoMemory),
    }
}
