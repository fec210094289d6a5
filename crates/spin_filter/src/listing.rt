//! The bindings whose hits are counted.

ghost use Rattle.std.specs.Prelude.{◌≡◌, ◌<◌, ◌++◌, [], List, length, map, slice_get, IfOk, IsSomeAnd, OnOk};
ghost use Rattle.spin_table.specs.SetupOf.{data_of};
ghost use Rattle.spin_table.specs.Soundness.{IsSoundVersion};
ghost use Rattle.spin_filter.specs.Counting.{BindingAt};
ghost use Rattle.spin_filter.specs.Inner.Fresh.{AreFresh};
ghost use Rattle.spin_filter.specs.Listing.{binding_at, default_of, bindings_of, bindings_at};

use crate::hits::Hit;
use spin_place::Binding;
use spin_table::{Setup, Version};
use spin_values::NoMemory;
use std::alloc::Global;

// Lists these bindings of the event behind those that are listed.
fn list_bindings(hits: &mut Vec<Hit>, event: u8, bindings: &[Binding]) -> Result<(), NoMemory>
    ensures { (listed : List BindingAt) → AreFresh listed hits.old.items
        → OnOk result (AreFresh (listed ++ map (λ b. binding_at event b.number) bindings.now) hits.new.items) }
{
    for binding in bindings {
        hits.push(Hit::new(event, binding.number))?;
    }
    Ok(())
}

// Lists the default of the event, if it has one.
fn list_default(hits: &mut Vec<Hit>, event: u8, default: u16) -> Result<(), NoMemory>
    ensures { (listed : List BindingAt) → AreFresh listed hits.old.items
        → OnOk result (AreFresh (listed ++ default_of event default) hits.new.items) }
{
    if default == 0 {
        return Ok(());
    }
    hits.push(Hit::new(event, 0))?;
    Ok(())
}

// Lists the default of the event, if it has one, and its bindings.
fn list_event(hits: &mut Vec<Hit>, event: u8, version: &Version) -> Result<(), NoMemory>
    requires { event < length version.now.state.events }
    ensures { (listed : List BindingAt) → AreFresh listed hits.old.items
        → OnOk result (IsSomeAnd (slice_get version.now.state.events event)
        (λ e. AreFresh (listed ++ bindings_of event e) hits.new.items)) }
{
    list_default(hits, event, version.default_of(event))?;
    list_bindings(hits, event, version.bindings(event))?;
    Ok(())
}

// The hits of each binding that is live at the version, and of each event's default; nothing was hit yet.
pub(crate) fn list_hits(
    alloc: Global,
    setup: &Setup,
    version: &Version,
) -> Result<Vec<Hit>, NoMemory>
    requires { IsSoundVersion (data_of setup.now) version.now }
    ensures { IfOk result (λ hits. AreFresh (bindings_at version.now.state) hits.items) }
{
    let mut hits = Vec::new(alloc);
    for event in 0..setup.events() {
        list_event(&mut hits, event, version)?;
    }
    Ok(hits)
}
