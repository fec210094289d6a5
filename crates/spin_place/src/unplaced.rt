//! Bindings that ask for no place, which stand in their order where their numbers rise.

ghost use Rattle.std.specs.Prelude.{◌≡◌, Decides, IsTrue};
ghost use Rattle.spin_place.specs.Unplaced.{asks_nothing, names_none, AreUnplaced};
ghost use Rattle.spin_place.specs.Precedence.{numbers_of, IsTheOrder};

use crate::binding::Binding;
use spin_word::{NO_BINDING, Place};

// Whether none of these is the number of a binding.
fn names_none(numbers: &[u16]) -> bool
    ensures { result ≡ names_none numbers.now }
{
    numbers.iter().all(|number| *number == NO_BINDING)
}

// Whether it is neither first nor last, and is before and after none.
fn asks_nothing(binding: &Binding) -> bool
    ensures { result ≡ asks_nothing binding.now }
{
    matches!(binding.place, Place::Free)
        && names_none(&binding.before)
        && names_none(&binding.after)
}

/// Whether no binding asks for a place, and their numbers rise: then the bindings stand in their order already. It
/// takes no memory, and time linear in the bindings.
pub fn are_unplaced(bindings: &[Binding]) -> bool
    ensures told { Decides result (AreUnplaced bindings.now) }
    ensures order { IsTrue result → IsTheOrder bindings.now (numbers_of bindings.now) }
{
    let mut least: u32 = 0;
    for binding in bindings {
        if u32::from(binding.number) < least || !asks_nothing(binding) {
            return false;
        }
        least = u32::from(binding.number) + 1;
    }
    true
}
