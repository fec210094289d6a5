//! The search for a cycle, where none of the bindings that are left may come next.

ghost use Rattle.std.specs.Prelude.{◌≡◌, ◌<◌, ◌≤◌, ◌++◌, ℕ, IfOk, IsTrue, MatchOption};
ghost use Rattle.std.specs.Prelude.{All, Any, length, slice_index, take, drop, vec_len};
ghost use Rattle.std.specs.List.{Contains, HoldsAt};
ghost use Rattle.spin_place.specs.Inner.Candidates.{bindings_of, EachWaits};
ghost use Rattle.spin_place.specs.Orders.{AreDistinct, IsRing, IsCycleOf};
ghost use Rattle.spin_place.specs.Precedence.{must_precede, MustPrecede};

use crate::binding::{Binding, must_precede};
use crate::candidate::Candidate;
use spin_values::NoMemory;

// Where a candidate stands that must precede this binding.
fn predecessor(rest: &[Candidate], later: &Binding) -> usize
    requires { Any (λ c. IsTrue (must_precede c.binding.now later.now)) rest.now }
    ensures there { result < length rest.now }
    ensures precedes { HoldsAt (λ c. IsTrue (must_precede c.binding.now later.now))
        rest.now result }
{
    rest.iter()
        .position(|earlier| must_precede(earlier.binding, later))
        .unwrap()
}

// Where the number stands, if it does.
fn position_of(numbers: &[u16], number: u16) -> Option<usize>
    ensures { MatchOption result
        (Contains numbers.now number → ⊥)
        (λ at. (at < length numbers.now) × (slice_index numbers.now at ≡ number)) }
{
    numbers.iter().position(|other| *other == number)
}

// Goes back from a candidate to one that must precede it, until a number comes again.
fn walk_back(rest: &[Candidate], mut path: Vec<u16>) -> Result<Vec<u16>, NoMemory>
    requires some { 0 < length rest.now }
    requires waits { EachWaits rest.now }
    ensures several { IfOk result (λ ring. 2 ≤ vec_len ring) }
    ensures distinct { IfOk result (λ ring. AreDistinct ring.items) }
    ensures closed { IfOk result (λ ring. IsRing (MustPrecede (bindings_of rest.now)) ring.items) }
{
    path.clear();
    let mut at = 0;
    loop {
        let later = rest[at].binding;
        path.insert(0, later.number)?;
        at = predecessor(rest, later);
        let earlier = rest[at].binding.number;
        if let Some(again) = position_of(&path, earlier) {
            path.truncate(again + 1);
            return Ok(path);
        }
    }
}

// Turns the numbers until the least comes first.
fn start_at_least(ring: &mut [u16])
    requires { 0 < length ring.old }
    ensures least { All (λ n. slice_index ring.new 0 ≤ n) ring.new }
    ensures turned { (k : ℕ) × (k < length ring.old)
        × (ring.new ≡ drop k ring.old ++ take k ring.old) }
{
    let mut least = 0;
    for at in 1..ring.len() {
        if ring[at] < ring[least] {
            least = at;
        }
    }
    ring.rotate_left(least);
}

// A cycle among candidates of which each waits for another. The numbers that `path` has are lost. It compares at
// most each two of the candidates.
pub(crate) fn cycle_among(rest: &[Candidate], path: Vec<u16>) -> Result<Vec<u16>, NoMemory>
    requires some { 0 < length rest.now }
    requires waits { EachWaits rest.now }
    ensures { IfOk result (λ cycle. IsCycleOf (MustPrecede (bindings_of rest.now)) cycle.items) }
{
    let mut ring = walk_back(rest, path)?;
    start_at_least(ring.as_mut_slice());
    Ok(ring)
}
