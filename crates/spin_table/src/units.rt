//! Which handlers and guards an event can have.

ghost use Rattle.std.specs.Prelude.{◌≡◌, MatchOption, Some, None};
ghost use Rattle.std.specs.Option.{option_map};
ghost use Rattle.std.specs.List.{list_any};
ghost use Rattle.spin_values.specs.First.{numbered};
ghost use Rattle.spin_objects.specs.Units.{handlers_of, guards_of};
ghost use Rattle.spin_table.specs.Units as specs;

use crate::event::EventDef;
use spin_code::{Act, ActStep, Guards};
use spin_objects::Catalogue;
use spin_values::{EventType, same_kinds, same_type};
use spin_word::Mode;

// Whether the signatures are equal.
pub(crate) fn has_signature(a: &EventType, b: &EventType) -> bool
    ensures { result ≡ specs.same_signature a.now b.now }
{
    same_type(a, b)
}

// Whether the signatures have the same number and kinds of parameters.
pub(crate) fn has_parameter_kinds(a: &EventType, b: &EventType) -> bool
    ensures { result ≡ specs.same_parameter_kinds a.now b.now }
{
    same_kinds(a, b)
}

fn step_raises_down(event: u8, step: &ActStep) -> bool
    ensures { result ≡ specs.step_raises_down event step.now }
{
    match step {
        ActStep::Up { event: raised, .. } => *raised <= event,
        ActStep::Layer { event: raised, .. } => *raised <= event,
        _ => false,
    }
}

// Whether the act raises an event that isn't greater than this one.
pub(crate) fn raises_down(event: u8, act: &Act) -> bool
    ensures { result ≡ specs.raises_down event act.now }
{
    act.steps
        .as_slice()
        .iter()
        .any(|step| step_raises_down(event, step))
}

fn is_set(step: &ActStep) -> bool
    ensures { result ≡ specs.is_set step.now }
{
    matches!(step, ActStep::Set { .. })
}

// Whether the act changes an argument.
pub(crate) fn sets_argument(act: &Act) -> bool
    ensures { result ≡ specs.sets_argument act.now }
{
    act.steps.as_slice().iter().any(|step| is_set(step))
}

// Whether the act changes an argument, and wouldn't run as a filter.
pub(crate) fn has_wrong_mode(mode: Mode, act: &Act) -> bool
    ensures { result ≡ specs.has_wrong_mode mode act.now }
{
    sets_argument(act) && !matches!(mode, Mode::Filter)
}

fn is_handler_for(event: u8, def: &EventDef, mode: Mode, sig: &EventType, act: &Act) -> bool
    ensures { result
        ≡ specs.is_handler_for event def.now mode
        (record { sig = sig.now; act = act.now }) }
{
    has_signature(sig, &def.sig) && !raises_down(event, act) && !has_wrong_mode(mode, act)
}

// The signature and the act of the handler of that number, if it is there.
pub(crate) fn find_handler(catalogue: &Catalogue, number: u16) -> Option<(&EventType, &Act)>
    ensures { MatchOption result (numbered (handlers_of catalogue.now) number ≡ None) (λ h.
        numbered (handlers_of catalogue.now) number
        ≡ Some (record { sig = h.0.now; act = h.1.now })) }
{
    if number == 0 || number > catalogue.handlers() {
        return None;
    }
    Some((catalogue.type_of(number), catalogue.act_of(number)))
}

// The signature of the guard of that number, if it is there.
pub(crate) fn find_guard(catalogue: &Catalogue, number: u16) -> Option<&EventType>
    ensures { MatchOption result (numbered (guards_of catalogue.now) number ≡ None) (λ sig.
        option_map (λ g. g.sig) (numbered (guards_of catalogue.now) number)
        ≡ Some sig.now) }
{
    if number == 0 || number > catalogue.count() {
        return None;
    }
    Some(catalogue.guard_type(number))
}

/// Whether a handler of that number is there and serves the event in this mode.
pub fn is_fit_handler(
    catalogue: &Catalogue,
    event: u8,
    def: &EventDef,
    mode: Mode,
    handler: u16,
) -> bool
    ensures { result ≡ specs.is_fit_handler (handlers_of catalogue.now) event def.now mode handler }
{
    match find_handler(catalogue, handler) {
        None => false,
        Some((sig, act)) => is_handler_for(event, def, mode, sig, act),
    }
}

/// Whether a guard of that number is there and asks of the event's parameters.
pub fn is_fit_guard(catalogue: &Catalogue, def: &EventDef, guard: u16) -> bool
    ensures { result ≡ specs.is_fit_guard (guards_of catalogue.now) def.now guard }
{
    match find_guard(catalogue, guard) {
        None => false,
        Some(sig) => has_parameter_kinds(sig, &def.sig),
    }
}
