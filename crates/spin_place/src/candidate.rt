//! The bindings that have no place in the order yet.

ghost use Rattle.std.specs.Prelude.{◌≡◌, ◌<◌, ◌≤◌, not, ℕ, IfOk, IsTrue, All, length, map, count_by, MatchOption, slice_index};
ghost use Rattle.std.specs.List.{Contains, HoldsAt};
ghost use Rattle.std.specs.List.Sorted.{IsPermutation};
ghost use Rattle.spin_place.specs.Orders.{AreDistinct};
ghost use Rattle.spin_place.specs.Precedence.{is_first, is_last, numbers_of};
ghost use Rattle.spin_place.specs.Inner.Links.{times_led};
ghost use Rattle.spin_place.specs.Inner.Candidates.{bindings_of, numbers_left, held, released, is_ready, AreCounted, AreRising, IsFirstReady};

use crate::binding::{Binding, is_first, is_last};
use crate::links::Link;
use spin_values::NoMemory;
use std::alloc::Global;

// A binding that isn't placed yet, and how many links lead to it from those that aren't.
#[derive(Clone, Copy)]
pub(crate) struct Candidate<'a> {
    pub(crate) binding: &'a Binding,
    pub(crate) waits: usize,
}

// All bindings in the order of their numbers, as if no link led to any.
fn by_number<'a>(alloc: Global, bindings: &'a [Binding]) -> Result<Vec<Candidate<'a>>, NoMemory>
    requires { AreDistinct (numbers_of bindings.now) }
    ensures bindings { IfOk result (λ rest. IsPermutation bindings.now (bindings_of rest.items)) }
    ensures rising { IfOk result (λ rest. AreRising rest.items) }
    ensures free { IfOk result (λ rest. All (λ c. c.waits ≡ 0) rest.items) }
{
    let mut rest = Vec::with_capacity(alloc, bindings.len())?;
    for binding in bindings {
        rest.push(Candidate { binding, waits: 0 })?;
    }
    rest.sort_unstable_by_key(|candidate| candidate.binding.number);
    Ok(rest)
}

// Where the candidate of that number stands, if there is one. It takes a binary search.
fn position_of(rest: &[Candidate], number: u16) -> Option<usize>
    requires { AreRising rest.now }
    ensures { MatchOption result
        (Contains (numbers_left rest.now) number → ⊥)
        (λ at. (at < length rest.now) × HoldsAt (λ c. c.binding.now.number ≡ number) rest.now at) }
{
    rest.binary_search_by_key(&number, |candidate| candidate.binding.number)
        .ok()
}

// Has each candidate wait for the links that lead to it from another.
fn hold(rest: &mut [Candidate], links: &[Link])
    requires rising { AreRising rest.old }
    requires free { All (λ c. c.waits ≡ 0) rest.old }
    ensures { rest.new ≡ map (held (numbers_left rest.old) links.now) rest.old }
{
    for link in links {
        if position_of(rest, link.earlier).is_none() {
            continue;
        }
        if let Some(at) = position_of(rest, link.later) {
            rest[at].waits += 1;
        }
    }
}

// All bindings in the order of their numbers, none of which is placed yet.
pub(crate) fn candidates<'a>(
    alloc: Global,
    bindings: &'a [Binding],
    links: &[Link],
) -> Result<Vec<Candidate<'a>>, NoMemory>
    requires { AreDistinct (numbers_of bindings.now) }
    ensures bindings { IfOk result (λ rest. IsPermutation bindings.now (bindings_of rest.items)) }
    ensures rising { IfOk result (λ rest. AreRising rest.items) }
    ensures counted { IfOk result (λ rest. AreCounted links.now rest.items) }
{
    let mut rest = by_number(alloc, bindings)?;
    hold(&mut rest, links);
    Ok(rest)
}

// How many bindings go first.
pub(crate) fn count_first(bindings: &[Binding]) -> usize
    ensures { result ≡ count_by (λ b. is_first b.place) bindings.now }
{
    bindings
        .iter()
        .filter(|binding| is_first(binding.place))
        .count()
}

// How many bindings don't go last.
pub(crate) fn count_inner(bindings: &[Binding]) -> usize
    ensures { result ≡ count_by (λ b. not (is_last b.place)) bindings.now }
{
    bindings
        .iter()
        .filter(|binding| !is_last(binding.place))
        .count()
}

// Whether nothing holds the candidate back, where so many go first and so many don't go last.
fn is_ready(candidate: &Candidate, firsts: usize, inner: usize) -> bool
    ensures { result ≡ is_ready firsts inner candidate.now }
{
    candidate.waits == 0
        && (is_first(candidate.binding.place) || firsts == 0)
        && (!is_last(candidate.binding.place) || inner == 0)
}

// Where the first candidate stands that is ready; `None` exactly where none is.
pub(crate) fn first_ready(rest: &[Candidate], firsts: usize, inner: usize) -> Option<usize>
    ensures { MatchOption result
        (All (λ c. IsTrue (is_ready firsts inner c) → ⊥) rest.now)
        (λ at. IsFirstReady firsts inner rest.now at) }
{
    rest.iter()
        .position(|candidate| is_ready(candidate, firsts, inner))
}

// Lets no candidate wait for these links any longer.
pub(crate) fn release(rest: &mut [Candidate], links: &[Link])
    requires rising { AreRising rest.old }
    requires waits { All (λ c. times_led links.now c.binding.now.number ≤ c.waits) rest.old }
    ensures { rest.new ≡ map (released links.now) rest.old }
{
    for link in links {
        if let Some(at) = position_of(rest, link.later) {
            rest[at].waits -= 1;
        }
    }
}
