//! The live bindings of a version, of which there may be too many.

ghost use Rattle.std.specs.Prelude.{◌≡◌, ◌<◌, ◌≤◌, ◌↔◌, length, IsTrue, MatchResult};
ghost use Rattle.spin_word.specs.declared.command.TheConstants.{MAX_PLACE};
ghost use Rattle.spin_table.specs.SetupOf.{data_of};
ghost use Rattle.spin_table.specs.Soundness.{IsSoundVersion};
ghost use Rattle.std.specs.Option.{option_copied};
ghost use Rattle.spin_table.specs.States.{binding_of, is_live};
ghost use Rattle.spin_table.specs.Renewals.{is_live_in, live_numbers};
ghost use Rattle.spin_seat.specs.Seats.{IsSeat};
ghost use Rattle.spin_seat.specs.Inner.Gathering.{KeepsFrom};

use crate::hub::Hub;
use crate::renewal::RenewFault;
use crate::seat::Seat;
use spin_place::Binding;
use spin_table::{Setup, Version};
use spin_values::{NoMemory, Numbers};
use spin_word::MAX_PLACE;
use std::alloc::Global;

// The binding of that number.
fn find_binding(bindings: &[Binding], number: u16) -> Option<&Binding>
    ensures { option_copied result ≡ binding_of bindings.now number }
{
    bindings.iter().find(|binding| binding.number == number)
}

// Whether one of the bindings has the number.
fn has_number(bindings: &[Binding], number: u16) -> bool
    ensures { result ≡ is_live bindings.now number }
{
    match find_binding(bindings, number) {
        Some(_) => true,
        None => false,
    }
}

// Whether a binding of some event has the number.
fn is_live(setup: &Setup, version: &Version, number: u16) -> bool
    requires { IsSoundVersion (data_of setup.now) version.now }
    ensures { result ≡ is_live_in version.now.state number }
{
    for event in 0..setup.events() {
        if has_number(version.bindings(event), number) {
            return true;
        }
    }
    false
}

// How many bindings are live. It takes no memory, and so looks through them for each number up to the place.
fn live_count(setup: &Setup, version: &Version) -> u16
    requires { IsSoundVersion (data_of setup.now) version.now }
    ensures { result ≡ length (live_numbers version.now.state) }
{
    let mut count = 0;
    for before in 0..version.place() {
        if is_live(setup, version, before + 1) {
            count += 1;
        }
    }
    count
}

// The numbers of the live bindings, where a number is left for one more, or why there are none.
pub(crate) fn live_below(
    alloc: Global,
    setup: &Setup,
    version: &Version,
) -> Result<Numbers, RenewFault>
    requires { IsSoundVersion (data_of setup.now) version.now }
    ensures { MatchResult result
        (λ live. (live ≡ live_numbers version.now.state) × (length live < MAX_PLACE))
        (KeepsFrom version.now.state) }
{
    match version.live_numbers(alloc) {
        Ok(live) => {
            if live.len() >= usize::from(MAX_PLACE) {
                return Err(RenewFault::Full);
            }
            Ok(live)
        }
        Err(NoMemory) => {
            if live_count(setup, version) >= MAX_PLACE {
                return Err(RenewFault::Full);
            }
            Err(RenewFault::NoMemory)
        }
    }
}

impl Seat {
    /// Whether [`MAX_PLACE`] bindings are live in the seat's version, so that a hub at it can't be renewed. It takes no
    /// memory, and a time that grows with the places times the bindings.
    pub fn is_crowded(&self, hub: &Hub) -> bool
        requires { IsSeat (data_of hub.now.setup) self.now }
        ensures { IsTrue result ↔ (MAX_PLACE ≤ length (live_numbers self.now.state)) }
    {
        live_count(&hub.setup, &self.version) >= MAX_PLACE
    }
}
