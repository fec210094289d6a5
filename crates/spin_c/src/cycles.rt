//! What a verdict on a command is told as, and the cycle for which one is refused.

ghost use Rattle.std.specs.Prelude.{◌≡◌, slice_get};
ghost use Rattle.spin_table.specs.declared.refusal.Verdicted.TheVariants as verdicted;
ghost use Rattle.spin_c.specs.Cycles.{binding_told, judged_told, why_told};
ghost use Rattle.spin_c.specs.Kept.{cycle_left, last_by};

use crate::ask::{Outcome, Why};
use crate::kept::{Kept, Last};
use spin_report::refusal_number;
use spin_seat::Judged;
use spin_table::{Refusal, Verdicted};

// Why a command is refused, in numbers.
fn why_told(refusal: &Refusal) -> Why
    ensures { result ≡ why_told refusal.now }
{
    let kind = u32::from(refusal_number(refusal));
    let (rule, bindings) = match refusal {
        Refusal::Denied(rule) | Refusal::ForcedMode(rule) => (u64::from(*rule), 0),
        Refusal::Conflict(cycle) => (0, cycle.len() as u64),
        _ => (0, 0),
    };
    Why {
        kind,
        rule,
        bindings,
    }
}

// What a refusal leaves: the cycle that it names, which isn't copied.
fn last_of(refusal: Refusal) -> Last
    ensures { result ≡ last_by (verdicted.Refused refusal) }
{
    match refusal {
        Refusal::Conflict(cycle) => Last::Cycle(cycle),
        _ => Last::None,
    }
}

// Tells what became of a command, and hands out what that leaves.
pub(crate) fn judged_told(judged: Judged) -> (Outcome, Last)
    ensures told { result.0 ≡ judged_told judged.place judged.verdict }
    ensures left { result.1 ≡ last_by judged.verdict }
{
    let Judged { place, verdict } = judged;
    match verdict {
        Verdicted::Accepted => (Outcome::Accepted(place), Last::None),
        Verdicted::Refused(refusal) => {
            let why = why_told(&refusal);
            (Outcome::Refused { place, why }, last_of(refusal))
        }
    }
}

// The binding at an index of the cycle that is kept.
pub(crate) fn in_cycle(kept: &Kept, index: u64) -> Outcome
    ensures { result ≡ binding_told (slice_get (cycle_left kept.now) index) }
{
    match kept.cycle().get(index as usize) {
        Some(binding) => Outcome::InCycle(*binding),
        None => Outcome::NoBinding,
    }
}
