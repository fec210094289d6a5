//! The sends of steps, as they come.

ghost use Rattle.std.specs.Prelude.{◌≡◌, ◌≤◌, ◌⊎◌, ◌∷◌, [], true, false, length, IfErr, MatchResult, OnOk};
ghost use Rattle.spin_endpoint.specs.declared.ends.TheConstants.{MAX_ENDPOINTS};
ghost use Rattle.spin_endpoint.specs.Sends.{SentSeen, name_of};
ghost use Rattle.spin_frames.specs.Written.{with_waiting};
ghost use Rattle.spin_filter.specs.Counting.{Marked, Sending, just_steps, later_steps, job_steps};
ghost use Rattle.spin_filter.specs.Inner.Sends.{IsPut, StopsPut, IsOf, IsHanded, StopsHanding, IsMade};
ghost use Rattle.spin_filter.specs.Sending.{is_writer, outlets_at, IsDone, StopsSending};
ghost use Rattle.spin_filter.specs.Stops.{IsSentIn};

use crate::counts::Counts;
use crate::outlets::Outlets;
use crate::passing::Passing;
use crate::stop::Stop;
use crate::taken::Taken;
use spin_endpoint::{DeliverFault, Ends, EndsSeen};
use spin_frames::{FrameFile, put_record};
use spin_outside::Sink;
use spin_proto::Step;
use spin_values::Text;

// Whether bytes that are sent stand for the frame: they are it, or none.
fn is_frame(bytes: &[u8], frame: &[u8]) -> bool
    ensures is { result ≡ true → (bytes.now ≡ frame.now) ⊎ (bytes.now ≡ []) }
    ensures other { result ≡ false → (bytes.now ≡ frame.now) ⊎ (bytes.now ≡ []) → ⊥ }
{
    if bytes.is_empty() {
        return true;
    }
    bytes == frame
}

// Writes the record, where the bytes are its frame, or none.
fn put_frame<W: Sink + Drop>(
    file: &mut FrameFile<W>,
    taken: &Taken<'_>,
    endpoint: u8,
    bytes: &[u8],
) -> Result<(), Stop>
    ensures put { OnOk result (IsPut taken.now bytes.now
        (with_waiting (W.seen file.old.sink) file.old.waiting)
        (with_waiting (W.seen file.new.sink) file.new.waiting)) }
    ensures stop { let sent : SentSeen = record { endpoint = endpoint; bytes = bytes.now } in
        IfErr result (StopsPut (record { taken = taken.now; sent = sent })
        (with_waiting (W.seen file.old.sink) file.old.waiting)
        (with_waiting (W.seen file.new.sink) file.new.waiting)) }
{
    if !is_frame(bytes, taken.frame()) {
        return Err(Stop::NoFrame(endpoint));
    }
    match put_record(file, taken.head(), taken.header(), taken.frame()) {
        Ok(()) => Ok(()),
        Err(_) => Err(Stop::WriteFault),
    }
}

// The name of the number, which is empty where it has none.
fn name_at<'a>(names: &'a [Text], number: u8, none: &'a Text) -> &'a Text
    requires { none.now ≡ [] }
    ensures { result.now ≡ name_of names.now number }
{
    match names.get(number as usize) {
        Some(name) => name,
        None => none,
    }
}

// Hands the bytes to the endpoint that stands under the name of the number, or counts them as lost.
fn hand(
    passing: &Passing<'_>,
    endpoint: u8,
    bytes: &[u8],
    ends: &mut Ends,
    counts: &mut Counts,
) -> Result<(), Stop>
    requires { length passing.now.names.now ≤ MAX_ENDPOINTS }
    ensures handed { let sent : SentSeen = record { endpoint = endpoint; bytes = bytes.now } in
        OnOk result (IsHanded passing.now.names.now sent
        (⟦<Ends as EndsSeen>⟧.all ends.old) (⟦<Ends as EndsSeen>⟧.all ends.new) counts.old counts.new) }
    ensures stop { IfErr result (StopsHanding passing.now.names.now endpoint
        (⟦<Ends as EndsSeen>⟧.all ends.old) (⟦<Ends as EndsSeen>⟧.all ends.new)) }
{
    let none = Text::new(passing.alloc);
    match ends.deliver(name_at(passing.names, endpoint, &none), bytes) {
        Ok(()) => Ok(()),
        Err(DeliverFault::Unknown) => {
            counts.note_lost(endpoint);
            Ok(())
        }
        Err(DeliverFault::Failed) => Err(Stop::Endpoint(endpoint)),
    }
}

// Whether it is the number of the endpoint that writes a capture.
fn is_writer(capture: Option<u8>, endpoint: u8) -> bool
    ensures { result ≡ is_writer capture endpoint }
{
    match capture {
        Some(number) => endpoint == number,
        None => false,
    }
}

// Makes a send.
fn send<W: Sink + Drop>(
    passing: &Passing<'_>,
    taken: &Taken<'_>,
    endpoint: u8,
    bytes: &[u8],
    outlets: &mut Outlets<W>,
) -> Result<(), Stop>
    requires few { length passing.now.names.now ≤ MAX_ENDPOINTS }
    ensures { let before = outlets_at (⟦<Ends as EndsSeen>⟧.all outlets.old.ends)
        (with_waiting (W.seen outlets.old.file.sink) outlets.old.file.waiting) outlets.old.counts in
        let after = outlets_at (⟦<Ends as EndsSeen>⟧.all outlets.new.ends)
        (with_waiting (W.seen outlets.new.file.sink) outlets.new.file.waiting) outlets.new.counts in
        let sent : SentSeen = record { endpoint = endpoint; bytes = bytes.now } in
        let sending : Sending = record { taken = taken.now; sent = sent } in
        MatchResult result
        (λ _. IsMade passing.now.names.now passing.now.capture sending
        before after)
        (StopsSending passing.now.names.now passing.now.capture (λ s. s ≡ sending)
        before after) }
{
    if is_writer(passing.capture, endpoint) {
        put_frame(&mut outlets.file, taken, endpoint, bytes)?;
        return Ok(());
    }
    hand(
        passing,
        endpoint,
        bytes,
        &mut outlets.ends,
        &mut outlets.counts,
    )?;
    Ok(())
}

// Counts a step, which may be the first of a job, and makes its send, if it sends.
pub(crate) fn do_step<W: Sink + Drop>(
    passing: &Passing<'_>,
    taken: &Taken<'_>,
    step: &Step,
    is_first: bool,
    outlets: &mut Outlets<W>,
) -> Result<(), Stop>
    requires few { length passing.now.names.now ≤ MAX_ENDPOINTS }
    ensures { let before = outlets_at (⟦<Ends as EndsSeen>⟧.all outlets.old.ends)
        (with_waiting (W.seen outlets.old.file.sink) outlets.old.file.waiting) outlets.old.counts in
        let after = outlets_at (⟦<Ends as EndsSeen>⟧.all outlets.new.ends)
        (with_waiting (W.seen outlets.new.file.sink) outlets.new.file.waiting) outlets.new.counts in
        let marked : Marked = record { first = is_first; taken = step.now } in
        MatchResult result
        (λ _. IsDone passing.now.names.now passing.now.capture (just_steps taken.now (marked ∷ []))
        before after)
        (StopsSending passing.now.names.now passing.now.capture (IsOf taken.now (IsSentIn (step.now ∷ [])))
        before after) }
{
    outlets.counts.note_step(step, is_first);
    if let Step::Send { endpoint, bytes } = step {
        send(passing, taken, *endpoint, bytes.as_slice(), outlets)?;
    }
    Ok(())
}

// Counts the steps of a job, of which the first runs its handler, and makes their sends.
pub(crate) fn do_job_steps<W: Sink + Drop>(
    passing: &Passing<'_>,
    taken: &Taken<'_>,
    steps: &[Step],
    outlets: &mut Outlets<W>,
) -> Result<(), Stop>
    requires few { length passing.now.names.now ≤ MAX_ENDPOINTS }
    ensures { let before = outlets_at (⟦<Ends as EndsSeen>⟧.all outlets.old.ends)
        (with_waiting (W.seen outlets.old.file.sink) outlets.old.file.waiting) outlets.old.counts in
        let after = outlets_at (⟦<Ends as EndsSeen>⟧.all outlets.new.ends)
        (with_waiting (W.seen outlets.new.file.sink) outlets.new.file.waiting) outlets.new.counts in
        MatchResult result
        (λ _. IsDone passing.now.names.now passing.now.capture (just_steps taken.now (job_steps steps.now))
        before after)
        (StopsSending passing.now.names.now passing.now.capture (IsOf taken.now (IsSentIn steps.now))
        before after) }
{
    if steps.is_empty() {
        return Ok(());
    }
    do_step(passing, taken, &steps[0], true, outlets)?;
    do_steps(passing, taken, &steps[1..], outlets)?;
    Ok(())
}

// Counts steps of which none is the first of a job, and makes their sends.
pub(crate) fn do_steps<W: Sink + Drop>(
    passing: &Passing<'_>,
    taken: &Taken<'_>,
    steps: &[Step],
    outlets: &mut Outlets<W>,
) -> Result<(), Stop>
    requires few { length passing.now.names.now ≤ MAX_ENDPOINTS }
    ensures { let before = outlets_at (⟦<Ends as EndsSeen>⟧.all outlets.old.ends)
        (with_waiting (W.seen outlets.old.file.sink) outlets.old.file.waiting) outlets.old.counts in
        let after = outlets_at (⟦<Ends as EndsSeen>⟧.all outlets.new.ends)
        (with_waiting (W.seen outlets.new.file.sink) outlets.new.file.waiting) outlets.new.counts in
        MatchResult result
        (λ _. IsDone passing.now.names.now passing.now.capture (just_steps taken.now (later_steps steps.now))
        before after)
        (StopsSending passing.now.names.now passing.now.capture (IsOf taken.now (IsSentIn steps.now))
        before after) }
{
    for step in steps {
        do_step(passing, taken, step, false, outlets)?;
    }
    Ok(())
}
