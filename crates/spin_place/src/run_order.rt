//! The order in which bindings run, or a cycle.

ghost use Rattle.std.specs.Prelude.{◌≡◌, [], IfOk, List, ℕ};
ghost use Rattle.spin_place.specs.Orders.{AreDistinct};
ghost use Rattle.spin_place.specs.Faults.{IfConflict};
ghost use Rattle.spin_place.specs.Precedence.{numbers_of, IsLawful, IsTheOrder, IsCycle};

use crate::binding::{Binding, is_first, is_last};
use crate::candidate::{candidates, count_first, count_inner, first_ready, release};
use crate::cycle::cycle_among;
use crate::links::{links, links_from};
use crate::unplaced::are_unplaced;
use spin_values::{NoMemory, Numbers};
use std::alloc::Global;
use thiserror::Error;

/// Why there is no order.
#[derive(Debug, Drop, PartialEq, Error)]
pub enum OrderFault {
    /// Each order lets some binding stand after one that it must precede. The numbers show it: they are distinct and
    /// at least two, the least comes first, and the binding of each must precede that of the next, and that of the
    /// last that of the first.
    #[error("the bindings must precede each other in a cycle")]
    Conflict(Numbers),
    /// There was no memory for the answer.
    #[error("out of memory")]
    NoMemory,
}

impl From<NoMemory> for OrderFault {
    ghost use Rattle.std.specs.Prelude.{◌≡◌};
    ghost use Rattle.spin_place.specs.declared.run_order.OrderFault.{OrderFault};

    ghost from_gives = { λ _ fault. fault ≡ OrderFault.NoMemory };

    fn from(_: NoMemory) -> OrderFault {
        OrderFault::NoMemory
    }
}

// The numbers of the bindings, as they stand.
fn numbers_in_place(alloc: Global, bindings: &[Binding]) -> Result<Numbers, NoMemory>
    ensures { IfOk result (λ numbers. numbers ≡ numbers_of bindings.now) }
{
    let mut numbers = Numbers::with_capacity(alloc, bindings.len())?;
    for binding in bindings {
        numbers.push(binding.number)?;
    }
    Ok(numbers)
}

/// The numbers of the bindings in the order in which they run: of all orders in which nothing stands after a
/// binding that it must precede, the one that has the smaller number where it first differs from another.
/// `Conflict` comes exactly where there is no such order.
///
/// It takes time linear in the bindings and in the numbers that they name, but for sorts and binary searches, and for
/// three things that can take the square of the bindings: at each place the walk to the first that is ready, and its
/// removal from the list of those that are left; and the search for a cycle, which compares at most each two of them.
/// Beside the answer it takes memory for a list of the bindings, and for one of the numbers that they name. Where no
/// binding asks for a place and their numbers rise, it takes neither list, and time linear in them.
pub fn order(alloc: Global, bindings: &[Binding]) -> Result<Numbers, OrderFault>
    requires { AreDistinct (numbers_of bindings.now) }
    ensures order { IfOk result (λ ns. IsTheOrder bindings.now ns) }
    ensures cycle { IfConflict result (λ ns. IsCycle bindings.now ns) }
    ensures unlawful { IfConflict result (λ _. (ns : List ℕ) → IsLawful bindings.now ns → ⊥) }
{
    if are_unplaced(bindings) {
        return Ok(numbers_in_place(alloc, bindings)?);
    }
    let links = links(alloc, bindings)?;
    let mut rest = candidates(alloc, bindings, &links)?;
    let mut firsts = count_first(bindings);
    let mut inner = count_inner(bindings);
    let mut placed = Numbers::with_capacity(alloc, bindings.len())?;
    while !rest.is_empty() {
        let Some(at) = first_ready(&rest, firsts, inner) else {
            let cycle = cycle_among(&rest, placed.into_vec())?;
            return Err(OrderFault::Conflict(Numbers::from_vec(cycle)));
        };
        let next = rest.remove(at).binding;
        placed.push(next.number)?;
        firsts -= usize::from(is_first(next.place));
        inner -= usize::from(!is_last(next.place));
        release(&mut rest, links_from(&links, next.number));
    }
    Ok(placed)
}
