//! What is asked of a collection of guards.

ghost use Rattle.std.specs.Prelude.{ℕ, ◌≡◌, ◌+◌, ◌-◌, ◌<◌, ◌≤◌, List, length, slice_get, Some};
ghost use Rattle.spin_code.specs.Truth.{admits_at};
ghost use Rattle.spin_code.specs.declared.test.Test.{Test};

use crate::test::Test;
use spin_values::{Args, Steps};
use std::sync::ledger::Ledger;

/// What holds of a value whose objects do what they were handed in with.
///
/// It is a condition of contracts alone. A value that holds no object of another's making meets it always.
pub trait Sincere {
    ghost sincere: { Self → Type 0 };
}

/// Guards, numbered from 1. Contracts see the list of their tests.
pub trait Guards: Sincere {
    ghost tests: { Self → List Test };

    /// They may be asked on the counter of this name. Who is handed guards and a counter can show that of no other.
    ghost counts: { Self → ℕ → Type 0 };

    /// How many guards there are.
    fn count(&self) -> u16
        ensures { result ≡ length (tests self.now) };

    /// The test of a guard that is there.
    fn test_of(&self, guard: u16) -> &Test
        requires first { 0 < guard }
        requires last { guard ≤ length (tests self.now) }
        ensures { slice_get (tests self.now) (guard - 1) ≡ Some result.now };

    /// Whether the test of a guard that is there holds of these arguments, which counts as one step.
    fn admits<L: Ledger>(&self, guard: u16, args: &Args, steps: &mut Steps<L>) -> bool
        requires first { 0 < guard }
        requires last { guard ≤ length (tests self.now) }
        requires sincere { Self.sincere self.now }
        requires counter { Self.counts self.now L.name }
        ensures value { result ≡ admits_at (tests self.now) guard args.now }
        ensures one_step { steps.new ≡ steps.old + 1 };
}
