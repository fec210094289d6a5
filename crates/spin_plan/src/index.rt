//! Positions of bindings, rising, by the constant that they require for the key.

ghost use Rattle.std.specs.Prelude.{◌≡◌, ℕ, ◌++◌, [], ◌∷◌, nat_le, nat_lt, if◌then◌else◌, OnOk, is_some};
ghost use Rattle.std.specs.List.{find};
ghost use Rattle.std.specs.List.Sorted.{IsNonDecreasing};
ghost use Rattle.spin_plan.specs.Planned.{positions_at, wants, least};

use spin_values::{NoMemory, Sequence};
use std::alloc::Global;
use std::collections::BTreeMap;

// The positions under each constant.
pub(crate) type Keyed = BTreeMap<u64, Sequence<u32>>;

// Adds a position under the constant that is wanted, or to those of no constant.
pub(crate) fn file(
    alloc: Global,
    keyed: &mut Keyed,
    free: &mut Sequence<u32>,
    wanted: Option<u64>,
    at: u32,
) -> Result<(), NoMemory>
    ensures keyed { OnOk result ((c : ℕ) → positions_at keyed.new.entries c
        ≡ positions_at keyed.old.entries c ++ (if wants c wanted then at ∷ [] else [])) }
    ensures free { OnOk result (free.new ≡ free.old ++ (if is_some wanted then [] else at ∷ [])) }
{
    match wanted {
        None => free.push(at),
        Some(constant) => keyed
            .entry(constant)?
            .or_insert(Sequence::new(alloc))
            .push(at),
    }
}

// The positions under a constant.
#[inline]
pub(crate) fn at_constant(keyed: &Keyed, constant: u64) -> &[u32]
    ensures { result.now ≡ positions_at keyed.now.entries constant }
{
    match keyed.get(&constant) {
        None => &[],
        Some(positions) => positions.as_slice(),
    }
}

// The first position at or after `from`.
#[inline]
fn first_from(positions: &[u32], from: u32) -> Option<u32>
    requires { IsNonDecreasing positions.now }
    ensures { result ≡ find (nat_le from) positions.now }
{
    let passed = positions.partition_point(
        |at: &u32| -> bool
            ensures { result ≡ nat_lt at.now from }
        { *at < from },
    );
    positions.get(passed).copied()
}

// The lesser one, or the one that is there.
#[inline]
fn least(a: Option<u32>, b: Option<u32>) -> Option<u32>
    ensures { result ≡ least a b }
{
    match (a, b) {
        (Some(x), Some(y)) => Some(x.min(y)),
        (Some(x), None) => Some(x),
        (None, y) => y,
    }
}

// The first position at or after `from` in one of two rising lists.
#[inline]
pub(crate) fn first_of_both(a: &[u32], b: &[u32], from: u32) -> Option<u32>
    requires a { IsNonDecreasing a.now }
    requires b { IsNonDecreasing b.now }
    ensures { result ≡ least (find (nat_le from) a.now) (find (nat_le from) b.now) }
{
    least(first_from(a, from), first_from(b, from))
}
