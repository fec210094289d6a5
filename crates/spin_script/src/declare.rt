//! The lines that declare events and endpoints.

ghost use Rattle.std.specs.Prelude.{◌≡◌, ℕ, List, bytes_eq};
ghost use Rattle.std.specs.List.{list_any};
ghost use Rattle.spin_code.specs.declared.merge.Merge.{Merge};
ghost use Rattle.spin_objects.specs.Units.{HandlerUnit, GuardUnit};
ghost use Rattle.spin_grammar.specs.Lines as said;
ghost use Rattle.spin_grammar.specs.Lines.{IsKept, is_merge_deep};
ghost use Rattle.spin_script.specs.States.{NativeData};
ghost use Rattle.spin_script.specs.Checks as specs;
ghost use Rattle.spin_script.specs.Inner.Drafts.{state};
ghost use Rattle.spin_script.specs.Inner.Reader.{Adds};

use crate::draft::Draft;
use spin_code::{ActFault, Merge, check_merge};
use spin_grammar::{Cause, Fault};
use spin_policy::Policy;
use spin_table::{Authority, EventDef};
use spin_values::{EventType, Text};
use std::alloc::Global;

// The cause that a fault of an act, a test or a merge is.
pub(crate) fn act_cause(fault: ActFault) -> Cause
    ensures { result ≡ specs.act_cause fault }
{
    match fault {
        ActFault::TooDeep => Cause::TooDeep,
        ActFault::TooLong => Cause::TooLong,
        ActFault::BadArg => Cause::BadArg,
        ActFault::BadKind => Cause::BadKind,
        ActFault::NotVar => Cause::NotVar,
        ActFault::NoResult => Cause::NoResult,
    }
}

// Sets the number of modules.
pub(crate) fn add_modules(draft: &mut Draft, modules: u16) -> Result<(), Fault>
    ensures { (n : NativeData) (handlers : List HandlerUnit) (guards : List GuardUnit) (number : ℕ)
        → Adds n (state draft.old handlers guards) number (said.Modules modules) result
        (state draft.new handlers guards) }
{
    draft.modules = modules;
    Ok(())
}

// Adds an event, whose merge is `None` where it is too deep.
pub(crate) fn add_event(
    alloc: Global,
    draft: &mut Draft,
    event: u8,
    owner: u8,
    sig: EventType,
    merge: Option<Merge>,
) -> Result<(), Fault>
    ensures { (n : NativeData) (handlers : List HandlerUnit) (guards : List GuardUnit) (number : ℕ)
        (m : Merge) → IsKept is_merge_deep merge m
        → Adds n (state draft.old handlers guards) number (said.Event event owner sig m) result
        (state draft.new handlers guards) }
{
    if usize::from(event) != draft.events.len() {
        return Err(Fault::Bad(Cause::Next));
    }
    let Some(merge) = merge else {
        return Err(Fault::Bad(Cause::TooDeep));
    };
    if let Err(fault) = check_merge(&merge) {
        return Err(Fault::Bad(act_cause(fault)));
    }
    if u16::from(owner) >= draft.modules {
        return Err(Fault::Bad(Cause::Undeclared));
    }
    draft.events.push(EventDef {
        sig,
        owner,
        merge,
        first_default: 0,
        authority: Authority::Rules(Policy::new(alloc)),
    })?;
    Ok(())
}

fn has_name(known: &Text, name: &[u8]) -> bool
    ensures { result ≡ bytes_eq known.now name.now }
{
    known.as_slice() == name
}

// Whether an endpoint of this name is declared.
fn is_endpoint(endpoints: &[Text], name: &[u8]) -> bool
    ensures { result ≡ list_any (λ known. bytes_eq known name.now) endpoints.now }
{
    endpoints.iter().any(|known| has_name(known, name))
}

// Adds an endpoint.
pub(crate) fn add_endpoint(draft: &mut Draft, endpoint: u8, name: Text) -> Result<(), Fault>
    ensures { (n : NativeData) (handlers : List HandlerUnit) (guards : List GuardUnit) (number : ℕ)
        → Adds n (state draft.old handlers guards) number (said.Endpoint endpoint name) result
        (state draft.new handlers guards) }
{
    if usize::from(endpoint) != draft.endpoints.len() {
        return Err(Fault::Bad(Cause::Next));
    }
    if is_endpoint(draft.endpoints.as_slice(), name.as_slice()) {
        return Err(Fault::Bad(Cause::Repeated));
    }
    draft.endpoints.push(name)?;
    Ok(())
}
