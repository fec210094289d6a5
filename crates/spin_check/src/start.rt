//! What a run of a script starts from: the endpoints that stand, and the capture's records.

ghost use Rattle.std.specs.Prelude.{◌≡◌, ◌<◌, ℕ, IfOk, length, bytes_eq, slice_index_or, false};
ghost use Rattle.std.specs.Option.{option_map, option_copied};
ghost use Rattle.std.specs.List.{list_any};
ghost use Rattle.spin_endpoint.specs.Sends.{name_of};
ghost use Rattle.spin_report.specs.Runs.{frames_of};
ghost use Rattle.spin_check.specs.RunTexts.{capture_of};

use spin_pcap::Captured;
use spin_values::{NoMemory, Octets, Text};
use std::alloc::Global;

// Whether the name is among these.
fn is_among(names: &[Text], name: &Text) -> bool
    ensures { result ≡ list_any (bytes_eq name.now) names.now }
{
    for other in names {
        if name.as_slice() == other.as_slice() {
            return true;
        }
    }
    false
}

/// Of each endpoint whether its name is among those that stand.
pub fn flags_of(alloc: Global, endpoints: &[Text], names: &[Text]) -> Result<Vec<bool>, NoMemory>
    ensures all { IfOk result (λ flags. length flags.items ≡ length endpoints.now) }
    ensures each { IfOk result (λ flags. (n : ℕ) → n < length endpoints.now
        → slice_index_or flags.items n false ≡ list_any (bytes_eq (name_of endpoints.now n)) names.now) }
{
    let mut flags = Vec::new(alloc);
    for name in endpoints {
        flags.push(is_among(names, name))?;
    }
    Ok(flags)
}

/// The records of the capture, none where there is none.
pub fn records_of<'a>(capture: Option<&'a Captured>) -> &'a [Octets]
    ensures { result.now ≡ frames_of (option_map capture_of (option_copied capture.entry)) }
{
    match capture {
        Some(capture) => capture.frames.as_slice(),
        None => &[],
    }
}
