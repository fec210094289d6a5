//! Whether numbers are a cycle of bindings.

ghost use Rattle.std.specs.Prelude.{◌≡◌, ◌<◌, ◌≤◌, Decides, IsTrue, All, Any, length, take, slice_index};
ghost use Rattle.spin_place.specs.Orders.{AreDistinct, IsRing};
ghost use Rattle.spin_place.specs.Precedence.{must_precede, MustPrecede, IsCycle};

use crate::binding::{Binding, must_precede};

// Whether this binding must precede one of that number.
fn precedes(bindings: &[Binding], earlier: &Binding, number: u16) -> bool
    ensures { Decides result
        (Any (λ c. (c.number ≡ number) × IsTrue (must_precede earlier.now c)) bindings.now) }
{
    bindings.iter().any(|later| later.number == number && must_precede(earlier, later))
}

// Whether a binding of the first number must precede one of the second.
fn leads(bindings: &[Binding], first: u16, second: u16) -> bool
    ensures { Decides result (MustPrecede bindings.now first second) }
{
    for earlier in bindings {
        if earlier.number == first && precedes(bindings, earlier, second) {
            return true;
        }
    }
    false
}

// Whether each number must precede the next one, and the last the first.
fn is_ring(bindings: &[Binding], numbers: &[u16]) -> bool
    ensures { Decides result (IsRing (MustPrecede bindings.now) numbers.now) }
{
    let Some((first, others)) = numbers.split_first() else {
        return false;
    };
    let mut last = *first;
    for next in others {
        if !leads(bindings, last, *next) {
            return false;
        }
        last = *next;
    }
    leads(bindings, last, *first)
}

// Whether the number at that index stands before it too.
fn stands_before(numbers: &[u16], at: usize) -> bool
    requires { at < length numbers.now }
    ensures { Decides result (Any (λ n. n ≡ slice_index numbers.now at) (take at numbers.now)) }
{
    numbers[..at].iter().any(|number| *number == numbers[at])
}

// Whether no number stands twice.
fn are_distinct(numbers: &[u16]) -> bool
    ensures { Decides result (AreDistinct numbers.now) }
{
    for at in 0..numbers.len() {
        if stands_before(numbers, at) {
            return false;
        }
    }
    true
}

// Whether none is less than the first.
fn is_least_first(numbers: &[u16]) -> bool
    ensures { Decides result (All (λ n. slice_index numbers.now 0 ≤ n) numbers.now) }
{
    for number in numbers {
        if *number < numbers[0] {
            return false;
        }
    }
    true
}

// Whether the numbers are a cycle, however many they are.
fn is_closed(bindings: &[Binding], numbers: &[u16]) -> bool
    ensures { Decides result (IsCycle bindings.now numbers.now) }
{
    numbers.len() >= 2
        && is_ring(bindings, numbers)
        && are_distinct(numbers)
        && is_least_first(numbers)
}

/// Whether the numbers are a cycle of the bindings: at least two distinct numbers, the least first, of which the
/// binding of each must precede that of the next, and that of the last that of the first. It takes no memory. A cycle
/// has at most as many numbers as there are bindings, so a longer list is refused without a look at it; else its time
/// is linear in the numbers beside the number of bindings: those behind the first that repeats aren't looked at again.
#[tactic(auto, using(crate::proofs::BindingPlacing::cycle_fits))]
pub fn is_cycle(bindings: &[Binding], numbers: &[u16]) -> bool
    ensures { Decides result (IsCycle bindings.now numbers.now) }
{
    numbers.len() <= bindings.len() && is_closed(bindings, numbers)
}
