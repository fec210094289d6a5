//! The lines of lanes and segments.

ghost use Rattle.std.specs.Prelude.{◌≡◌, ◌≤◌, ◌+◌, ℕ, List};
ghost use Rattle.spin_objects.specs.Units.{HandlerUnit, GuardUnit};
ghost use Rattle.spin_grammar.specs.Forms as forms;
ghost use Rattle.spin_grammar.specs.Lines as said;
ghost use Rattle.spin_grammar.specs.Tasks.{Asks};
ghost use Rattle.spin_word.specs.declared.command.TheConstants.{MAX_PLACE};
ghost use Rattle.spin_script.specs.States.{NativeData};
ghost use Rattle.spin_script.specs.States as states;
ghost use Rattle.spin_script.specs.Checks as specs;
ghost use Rattle.spin_script.specs.Inner.Drafts.{state};
ghost use Rattle.spin_script.specs.Inner.Reader.{Adds};

use crate::draft::Draft;
use crate::script::{Line, Segment};
use spin_grammar::{Cause, Fault};
use spin_word::{MAX_LANES, MAX_PLACE, Work};
use std::alloc::Global;
use std::mem;

/// The greatest number of deeds of a script, a packet line counting each of its records.
pub const MAX_DEEDS: u64 = 65536;

/// The greatest number of command lines of a script of version 1 or 2. One of version 3 may have [`MAX_PLACE`].
pub const MAX_EARLY_COMMANDS: u16 = 1000;

// Ends the segment that goes on.
pub(crate) fn add_barrier(alloc: Global, draft: &mut Draft) -> Result<(), Fault>
    ensures { (n : NativeData) (handlers : List HandlerUnit) (guards : List GuardUnit) (number : ℕ)
        → Adds n (state draft.old handlers guards) number said.Barrier result
        (state draft.new handlers guards) }
{
    let segment = mem::replace(&mut draft.segment, Segment::empty(alloc));
    draft.ended.push(segment)?;
    draft.begins = true;
    Ok(())
}

// Adds the retirement of an endpoint.
pub(crate) fn add_retire(draft: &mut Draft, endpoint: u16) -> Result<(), Fault>
    ensures { (n : NativeData) (handlers : List HandlerUnit) (guards : List GuardUnit) (number : ℕ)
        → Adds n (state draft.old handlers guards) number (said.Retire endpoint) result
        (state draft.new handlers guards) }
{
    if usize::from(endpoint) >= draft.endpoints.len() {
        return Err(Fault::Bad(Cause::Undeclared));
    }
    draft.segment.retires.push(endpoint)?;
    draft.begins = true;
    Ok(())
}

// The greatest number of command lines, in a script of this version.
fn most_commands(version: u8) -> u64
    ensures most { result ≡ specs.most_commands version }
    ensures few { result ≤ MAX_PLACE }
{
    if version == 3 {
        u64::from(MAX_PLACE)
    } else {
        u64::from(MAX_EARLY_COMMANDS)
    }
}

// How many command lines it counts for.
fn command_count(work: &Work) -> u32
    ensures { result ≡ states.command_count work.now }
{
    match work {
        Work::Command(_) => 1,
        _ => 0,
    }
}

// How many deeds it counts for.
fn deed_count(work: &Work) -> u32
    ensures { result ≡ states.deed_count work.now }
{
    match work {
        Work::Packet { count, .. } => *count,
        _ => 1,
    }
}

// The sum of two counts.
fn total(so_far: u32, more: u32) -> u64
    ensures { result ≡ so_far + more }
{
    u64::from(so_far) + u64::from(more)
}

// Adds a lane line that asks for this.
pub(crate) fn add_lane(draft: &mut Draft, number: u32, lane: u8, work: Work) -> Result<(), Fault>
    ensures { (n : NativeData) (handlers : List HandlerUnit) (guards : List GuardUnit) (t : forms.Task)
        → Asks lane work t → Adds n (state draft.old handlers guards) number
        (said.Lane lane t) result (state draft.new handlers guards) }
{
    let commands = total(draft.commands, command_count(&work));
    let deeds = total(draft.deeds, deed_count(&work));
    if commands > most_commands(draft.version) || deeds > MAX_DEEDS {
        return Err(Fault::Bad(Cause::Limit));
    }
    if lane >= MAX_LANES {
        return Err(Fault::Bad(Cause::Lane));
    }
    draft.segment.lines.push(Line { number, lane, work })?;
    draft.begins = false;
    draft.commands = commands as u32;
    draft.deeds = deeds as u32;
    draft.lanes = draft.lanes.max(lane + 1);
    Ok(())
}
