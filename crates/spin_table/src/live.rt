//! The live bindings of an event.

ghost use Rattle.std.specs.Prelude.{◌≡◌};
ghost use Rattle.std.specs.Option.{option_copied};
ghost use Rattle.std.specs.List.{list_any};
ghost use Rattle.spin_table.specs.States as specs;
ghost use Rattle.spin_table.specs.Refusals.{names_unknown};

use spin_place::Binding;
use spin_word::NO_BINDING;

// The live binding of that number.
pub(crate) fn find_binding(bindings: &[Binding], number: u16) -> Option<&Binding>
    ensures { option_copied result ≡ specs.binding_of bindings.now number }
{
    bindings.iter().find(|binding| binding.number == number)
}

// Whether a binding of that number is live.
pub(crate) fn is_live(bindings: &[Binding], number: u16) -> bool
    ensures { result ≡ specs.is_live bindings.now number }
{
    find_binding(bindings, number).is_some()
}

// How many of the bindings the module asked for.
pub(crate) fn live_of(bindings: &[Binding], requester: u8) -> usize
    ensures { result ≡ specs.live_of bindings.now requester }
{
    bindings
        .iter()
        .filter(|binding| binding.requester == requester)
        .count()
}

fn names_unknown(bindings: &[Binding], number: u16) -> bool
    ensures { result ≡ names_unknown bindings.now number }
{
    number != NO_BINDING && !is_live(bindings, number)
}

// Whether one of the numbers that isn't [`NO_BINDING`] is no live binding's.
pub(crate) fn name_unknown(bindings: &[Binding], numbers: &[u16]) -> bool
    ensures { result ≡ list_any (names_unknown bindings.now) numbers.now }
{
    numbers
        .iter()
        .any(|number| names_unknown(bindings, *number))
}
