//! The sends of a segment: those of its entries in their order, and then those of its jobs in theirs.

ghost use Rattle.std.specs.Prelude.{◌≡◌, ◌<◌, ◌≤◌, ◌++◌, ◌∷◌, [], OnOk, IfOk, length, All};
ghost use Rattle.std.specs.List.{flat_map, filter_map};
ghost use Rattle.spin_endpoint.specs.declared.ends.TheConstants.{MAX_ENDPOINTS};
ghost use Rattle.spin_report.specs.Runs.{sent_by, sends_of_reply};
ghost use Rattle.spin_run.specs.Inner.Marks.{IsInTrails, sends_in};
ghost use Rattle.spin_run.specs.Inner.Sending.{SendsAll, SendsByCount};

use crate::end::RunEnd;
use crate::trail::{EntryIndex, Sending, Trail};
use spin_endpoint::{Ends, EndsSeen, Lost, Sent};
use spin_proto::{Reply, Step};
use spin_values::{NoMemory, Text};
use std::alloc::Global;

// Adds the step, if it is a send.
fn add_step<'a>(sends: &mut Vec<Sent<'a>>, step: &'a Step) -> Result<(), NoMemory>
    ensures { OnOk result (sends.new.items ≡ sends.old.items ++ filter_map sent_by (step.now ∷ [])) }
{
    let Step::Send { endpoint, bytes } = step else {
        return Ok(());
    };
    sends.push(Sent::new(*endpoint, bytes.as_slice()))?;
    Ok(())
}

// Adds the sends of a reply.
fn add_of_reply<'a>(sends: &mut Vec<Sent<'a>>, reply: &'a Reply) -> Result<(), NoMemory>
    ensures { OnOk result (sends.new.items ≡ sends.old.items ++ sends_of_reply reply.now) }
{
    let Reply::Ran { trace, .. } = reply else {
        return Ok(());
    };
    for step in trace.as_slice() {
        add_step(sends, step)?;
    }
    Ok(())
}

// Adds sends that are kept.
fn add_all<'a>(sends: &mut Vec<Sent<'a>>, kept: &'a [Sending]) -> Result<(), NoMemory>
    ensures { OnOk result (sends.new.items ≡ sends.old.items ++ kept.now) }
{
    for sending in kept {
        sends.push(Sent::new(sending.endpoint, sending.bytes.as_slice()))?;
    }
    Ok(())
}

// Adds the sends of a mark, from its lane's trail.
fn add_of_mark<'a>(
    sends: &mut Vec<Sent<'a>>,
    trails: &'a [Trail],
    mark: &EntryIndex,
) -> Result<(), NoMemory>
    requires lies { IsInTrails trails.now mark.now }
    ensures { OnOk result (sends.new.items ≡ sends.old.items ++ sends_in trails.now mark.now) }
{
    let kept = trails[usize::from(mark.lane)].sends.as_slice();
    add_all(sends, mark.sends.of(kept))
}

// Adds the sends of entries, of which these are the marks.
fn add_of_entries<'a>(
    sends: &mut Vec<Sent<'a>>,
    trails: &'a [Trail],
    marks: &[EntryIndex],
) -> Result<(), NoMemory>
    requires lie { All (IsInTrails trails.now) marks.now }
    ensures { OnOk result (sends.new.items ≡ sends.old.items ++ flat_map (sends_in trails.now) marks.now) }
{
    for mark in marks {
        add_of_mark(sends, trails, mark)?;
    }
    Ok(())
}

// Adds the sends of jobs.
fn add_of_jobs<'a>(sends: &mut Vec<Sent<'a>>, replies: &'a [Reply]) -> Result<(), NoMemory>
    ensures { OnOk result (sends.new.items ≡ sends.old.items ++ flat_map sends_of_reply replies.now) }
{
    for reply in replies {
        add_of_reply(sends, reply)?;
    }
    Ok(())
}

// All sends of a segment.
fn sends_of_segment<'a>(
    alloc: Global,
    trails: &'a [Trail],
    marks: &[EntryIndex],
    replies: &'a [Reply],
) -> Result<Vec<Sent<'a>>, NoMemory>
    requires lie { All (IsInTrails trails.now) marks.now }
    ensures { IfOk result (λ sends. sends.items
        ≡ flat_map (sends_in trails.now) marks.now ++ flat_map sends_of_reply replies.now) }
{
    let mut sends = Vec::new(alloc);
    add_of_entries(&mut sends, trails, marks)?;
    add_of_jobs(&mut sends, replies)?;
    Ok(sends)
}

// Makes all sends of a segment whose entries have these marks, by the names of the endpoints' numbers, and answers how
// many were lost. It stops at the first that fails.
pub(crate) fn send_all(
    alloc: Global,
    ends: &mut Ends,
    names: &[Text],
    trails: &[Trail],
    marks: &[EntryIndex],
    replies: &[Reply],
) -> Result<Lost, RunEnd>
    requires few { length names.now ≤ MAX_ENDPOINTS }
    requires lie { All (IsInTrails trails.now) marks.now }
    requires named { All (λ sent. sent.endpoint < length names.now)
        (flat_map (sends_in trails.now) marks.now ++ flat_map sends_of_reply replies.now) }
    ensures sends { let sends = flat_map (sends_in trails.now) marks.now ++ flat_map sends_of_reply replies.now in
        SendsAll names.now sends result
        (⟦<Ends as EndsSeen>⟧.all ends.old) (⟦<Ends as EndsSeen>⟧.all ends.new) }
    ensures counts { SendsByCount names.now
        (⟦<Ends as EndsSeen>⟧.all ends.old) (⟦<Ends as EndsSeen>⟧.all ends.new) result }
{
    let sends = sends_of_segment(alloc, trails, marks, replies)?;
    match ends.deliver_all(names, sends.as_slice()) {
        Ok(lost) => Ok(lost),
        Err(endpoint) => Err(RunEnd::Endpoint(endpoint)),
    }
}
