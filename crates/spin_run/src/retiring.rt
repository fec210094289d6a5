//! The endpoints that are retired before a segment.

ghost use Rattle.std.specs.Prelude.{◌≡◌, ◌⊎◌, ◌<◌, length, map, All, IfOk, OnOk, OnErr};
ghost use Rattle.spin_text.specs.Words.{ended};
ghost use Rattle.spin_endpoint.specs.Sends.{all_retired};
ghost use Rattle.spin_report.specs.Histories.{retire_line};
ghost use Rattle.spin_report.specs.Runs.{retirements};
ghost use Rattle.spin_run.specs.Ends.{faults_of};

use crate::lines::add_retired;
use crate::writing::TextLines;
use spin_endpoint::{Ends, EndsSeen};
use spin_values::{NoMemory, Text};
use std::alloc::Global;

// So many flags, none of them set.
fn unset(alloc: Global, count: usize) -> Result<Vec<bool>, NoMemory>
    ensures { IfOk result (λ flags. length flags.items ≡ count) }
{
    let mut flags = Vec::new(alloc);
    for _ in 0..count {
        flags.push(false)?;
    }
    Ok(flags)
}

// Retires the endpoints of these numbers, by the names of the numbers, and answers their lines of the report. After
// want of memory all of them are retired, or none is.
pub(crate) fn retire(
    alloc: Global,
    ends: &mut Ends,
    names: &[Text],
    numbers: &[u16],
) -> Result<TextLines, NoMemory>
    requires named { All (λ number. number < length names.now) numbers.now }
    ensures lines { IfOk result (λ lines. lines ≡ map ended (map retire_line
        (retirements names.now numbers.now (⟦<Ends as EndsSeen>⟧.all ends.old)))) }
    ensures ends { OnOk result (⟦<Ends as EndsSeen>⟧.all ends.new
        ≡ all_retired names.now numbers.now (⟦<Ends as EndsSeen>⟧.all ends.old)) }
    ensures memory { let old = ⟦<Ends as EndsSeen>⟧.all ends.old in
        let new = ⟦<Ends as EndsSeen>⟧.all ends.new in
        OnErr result ((new ≡ old) ⊎ (new ≡ all_retired names.now numbers.now old)) }
    ensures faults { faults_of (⟦<Ends as EndsSeen>⟧.all ends.new)
        ≡ faults_of (⟦<Ends as EndsSeen>⟧.all ends.old) }
{
    let mut stood = unset(alloc, numbers.len())?;
    ends.retire_all(names, numbers, stood.as_mut_slice());
    let mut lines = TextLines::new(alloc);
    add_retired(&mut lines, numbers, stood.as_slice())?;
    Ok(lines)
}
