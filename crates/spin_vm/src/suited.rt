//! Scripts whose events are translation faults.

ghost use Rattle.std.specs.Prelude.{◌≡◌};
ghost use Rattle.spin_script.specs.Scripts.{script_seen};
ghost use Rattle.spin_script.specs.Soundness.{is_command_work};
ghost use Rattle.spin_table.specs.SetupOf.{data_of};
ghost use Rattle.spin_vm.specs.Scripts as specs;

use spin_script::{Line, Script, Segment, Work};
use spin_table::Setup;
use spin_values::{EventType, Kind, Param};

// Whether a parameter is a word by value.
fn is_word(param: &Param) -> bool
    ensures { result ≡ specs.is_word param.now }
{
    matches!(param.kind, Kind::Word) && !param.var
}

// Whether an event has the type of a fault's event: three words, and a result.
fn is_fault_type(sig: &EventType) -> bool
    ensures { result ≡ specs.is_fault_type sig.now }
{
    match sig.params.as_slice() {
        [first, second, third] => {
            sig.gives && is_word(first) && is_word(second) && is_word(third)
        }
        _ => false,
    }
}

// Whether there is such an event, and it takes faults.
fn takes_faults(setup: &Setup, event: u8) -> bool
    ensures { result ≡ specs.takes_faults (data_of setup.now).events event }
{
    event < setup.events() && is_fault_type(&setup.event(event).sig)
}

fn is_command(line: &Line) -> bool
    ensures { result ≡ is_command_work line.now.work }
{
    matches!(line.work, Work::Command(_))
}

// Whether the lines ask for commands alone.
fn are_commands(lines: &[Line]) -> bool
    ensures { result ≡ specs.are_commands lines.now }
{
    lines.iter().all(|line| is_command(line))
}

// Whether all deeds are commands.
fn asks_commands(segments: &[Segment]) -> bool
    ensures { result ≡ specs.asks_commands segments.now }
{
    segments.iter().all(|segment| are_commands(&segment.lines))
}

// Whether there is one segment and one lane.
fn is_single(script: &Script) -> bool
    ensures { result ≡ specs.is_single (script_seen script.now) }
{
    script.segments.len() == 1 && script.lanes == 1
}

// Whether there is an event for each fault.
fn has_fault_events(setup: &Setup) -> bool
    ensures { result ≡ specs.has_fault_events (data_of setup.now).events }
{
    takes_faults(setup, 0) && takes_faults(setup, 1) && takes_faults(setup, 2)
}

/// Whether a script is one for traces: it has one segment, one lane and command deeds alone, and its events 0, 1 and 2
/// have the signature `www:w`. It takes no memory, and time linear in the script.
pub fn is_suited(script: &Script) -> bool
    ensures { result ≡ specs.is_suited (script_seen script.now) }
{
    is_single(script) && asks_commands(&script.segments) && has_fault_events(&script.setup)
}
