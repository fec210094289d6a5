//! What is wrong with the parts of a setup.

ghost use Rattle.std.specs.Prelude.{◌≡◌, ◌≤◌, ◌<◌, ◌↔◌, IfSome, IsTrue, not, false, length};
ghost use Rattle.std.specs.Prelude.{map, position, slice_get};
ghost use Rattle.std.specs.Option.{option_map_or};
ghost use Rattle.std.specs.List.{list_all, enumerate_from};
ghost use Rattle.spin_values.specs.Kinds.{kinds_of};
ghost use Rattle.spin_code.specs.Uses.{is_of_kind};
ghost use Rattle.spin_objects.specs.Units.{handlers_of, guards_of, policies_of};
ghost use Rattle.spin_table.specs.Setups.{rules_of, has_authority};
ghost use Rattle.spin_table.specs.Catalogues.{data_from};
ghost use Rattle.spin_table.specs.Units as units;
ghost use Rattle.spin_table.specs.Faults as specs;

use crate::event::EventDef;
use crate::fault::SetupFault;
use crate::setup::{MAX_LIVE, MAX_MODULES};
use crate::units::{is_fit_guard, is_fit_handler};
use spin_code::{Act, ActStep, Layer, Part, Parts, check_merge};
use spin_objects::Catalogue;
use spin_policy::Rule;
use spin_values::{EventType, Kind, Param};
use spin_word::{MAX_EVENTS, Mode};

// Whether a number of modules, of live bindings, or of events is out of its range.
pub(crate) fn has_wrong_size(modules: u16, live: u16, events: usize) -> bool
    ensures { result ≡ specs.has_wrong_size modules live events }
{
    modules == 0
        || modules > MAX_MODULES
        || live == 0
        || live > MAX_LIVE
        || events > usize::from(MAX_EVENTS)
}

fn has_bad_owner(modules: u16, event: &EventDef) -> bool
    ensures { result ≡ specs.has_bad_owner modules event.now }
{
    u16::from(event.owner) >= modules
}

// The first event whose owner is no module.
pub(crate) fn bad_owner(modules: u16, events: &[EventDef]) -> Option<usize>
    ensures { result ≡ position (specs.has_bad_owner modules) events.now }
{
    events
        .iter()
        .position(|event| has_bad_owner(modules, event))
}

fn has_bad_merge(event: &EventDef) -> bool
    ensures { result ≡ specs.has_bad_merge event.now }
{
    check_merge(&event.merge).is_err()
}

// The first event whose merge has a fault.
pub(crate) fn bad_merge(events: &[EventDef]) -> Option<usize>
    ensures { result ≡ position specs.has_bad_merge events.now }
{
    events.iter().position(|event| has_bad_merge(event))
}

fn part_kind(part: &Part) -> Kind
    ensures { result ≡ specs.part_kind part.now }
{
    match part {
        Part::Word(_) => Kind::Word,
        Part::Bytes { .. } => Kind::Bytes,
    }
}

// Whether the parameters have the kinds of the parts.
fn have_kinds(sig: &EventType, parts: &Parts) -> bool
    ensures { IsTrue result ↔ (kinds_of sig.now ≡ map specs.part_kind parts.now) }
{
    if sig.params.len() != parts.len() {
        return false;
    }
    for at in 0..parts.len() {
        if sig.params.get(at).kind != part_kind(parts.get(at)) {
            return false;
        }
    }
    true
}

fn takes_parts(event: &EventDef, parts: &Parts) -> bool
    ensures { result ≡ specs.takes_parts parts.now event.now }
{
    have_kinds(&event.sig, parts)
}

fn has_kind(params: &[Param], at: usize, kind: Kind) -> bool
    ensures { result ≡ is_of_kind (slice_get params.now at) kind }
{
    match params.get(at) {
        None => false,
        Some(param) => matches!(
            (param.kind, kind),
            (Kind::Word, Kind::Word) | (Kind::Bytes, Kind::Bytes)
        ),
    }
}

fn takes_layer(params: &[Param], layer: Layer) -> bool
    ensures { result ≡ specs.takes_layer params.now layer }
{
    match layer {
        Layer::Ipv4 => {
            params.len() == 4
                && has_kind(params, 0, Kind::Bytes)
                && has_kind(params, 1, Kind::Word)
                && has_kind(params, 2, Kind::Word)
                && has_kind(params, 3, Kind::Word)
        }
        Layer::Udp => {
            params.len() == 5
                && has_kind(params, 0, Kind::Bytes)
                && has_kind(params, 1, Kind::Word)
                && has_kind(params, 2, Kind::Word)
                && has_kind(params, 3, Kind::Word)
                && has_kind(params, 4, Kind::Word)
        }
    }
}

fn is_up_fit(events: &[EventDef], event: u8, parts: &Parts) -> bool
    ensures { result
        ≡ option_map_or (specs.takes_parts parts.now) (slice_get events.now event) false }
{
    match events.get(event as usize) {
        None => false,
        Some(event) => takes_parts(event, parts),
    }
}

fn is_layer_fit(events: &[EventDef], event: u8, layer: Layer) -> bool
    ensures { result
        ≡ option_map_or (λ e. specs.takes_layer e.sig.params layer)
        (slice_get events.now event) false }
{
    match events.get(event as usize) {
        None => false,
        Some(event) => takes_layer(event.sig.params.as_slice(), layer),
    }
}

fn is_step_fit(events: &[EventDef], step: &ActStep) -> bool
    ensures { result ≡ specs.is_step_fit events.now step.now }
{
    match step {
        ActStep::Up { event, parts } => is_up_fit(events, *event, parts),
        ActStep::Layer { kind, event } => is_layer_fit(events, *event, *kind),
        _ => true,
    }
}

/// Whether what the act raises is there, and takes what it gets.
pub fn raises_fit(events: &[EventDef], act: &Act) -> bool
    ensures { result ≡ list_all (specs.is_step_fit events.now) act.now.steps }
{
    act.steps
        .as_slice()
        .iter()
        .all(|step| is_step_fit(events, step))
}

// The first handler, counted from 0, whose act raises an event that isn't there, or that takes something else.
pub(crate) fn bad_up(events: &[EventDef], catalogue: &Catalogue) -> Option<u16>
    ensures { result ≡ position (specs.raises_amiss events.now) (handlers_of catalogue.now) }
{
    for at in 0..catalogue.handlers() {
        if !raises_fit(events, catalogue.act_of(at + 1)) {
            return Some(at);
        }
    }
    None
}

fn has_bad_default(catalogue: &Catalogue, number: u8, event: &EventDef) -> bool
    ensures { result ≡ specs.has_bad_default (handlers_of catalogue.now) (number, event.now) }
{
    event.first_default != 0
        && !is_fit_handler(catalogue, number, event, Mode::Plain, event.first_default)
}

// The first event whose default can't serve it.
pub(crate) fn bad_default(events: &[EventDef], catalogue: &Catalogue) -> Option<usize>
    requires few { length events.now ≤ MAX_EVENTS }
    ensures default { result
        ≡ position (specs.has_bad_default (handlers_of catalogue.now))
        (enumerate_from 0 events.now) }
    ensures there { IfSome result (λ at. at < length events.now) }
{
    for (at, event) in events.iter().enumerate() {
        if has_bad_default(catalogue, at as u8, event) {
            return Some(at);
        }
    }
    None
}

fn are_fit(catalogue: &Catalogue, event: &EventDef, guards: &[u16]) -> bool
    ensures { result ≡ list_all (units.is_fit_guard (guards_of catalogue.now) event.now) guards.now }
{
    for guard in guards {
        if !is_fit_guard(catalogue, event, *guard) {
            return false;
        }
    }
    true
}

/// Whether the guards that the rule imposes are there, and ask of the event's parameters.
pub fn is_fit_rule(catalogue: &Catalogue, event: &EventDef, rule: &Rule) -> bool
    ensures { result ≡ specs.is_fit_rule (guards_of catalogue.now) event.now rule.now }
{
    are_fit(catalogue, event, rule.effect.guards())
}

/// Whether the guards that the rules impose are there, and ask of the event's parameters.
pub fn are_all_fit(catalogue: &Catalogue, event: &EventDef, rules: &[Rule]) -> bool
    ensures { result ≡ list_all (specs.is_fit_rule (guards_of catalogue.now) event.now) rules.now }
{
    for rule in rules {
        if !is_fit_rule(catalogue, event, rule) {
            return false;
        }
    }
    true
}

fn are_rules_fit(catalogue: &Catalogue, event: &EventDef) -> bool
    requires there { IsTrue (has_authority (policies_of catalogue.now.natives) event.now.authority) }
    ensures { result
        ≡ list_all (specs.is_fit_rule (guards_of catalogue.now) event.now)
        (rules_of (policies_of catalogue.now.natives) event.now.authority) }
{
    let rules = event.rules(catalogue.natives());
    are_all_fit(catalogue, event, rules.as_slice())
}

fn has_bad_policy(catalogue: &Catalogue, event: &EventDef) -> bool
    ensures { result
        ≡ specs.has_bad_policy (policies_of catalogue.now.natives)
        (guards_of catalogue.now) event.now }
{
    !(event.has_authority(catalogue.natives()) && are_rules_fit(catalogue, event))
}

// The first event whose native authoriser isn't there, or whose rules impose a guard that can't serve it.
pub(crate) fn bad_policy(events: &[EventDef], catalogue: &Catalogue) -> Option<usize>
    ensures { result
        ≡ position
        (specs.has_bad_policy (policies_of catalogue.now.natives)
        (guards_of catalogue.now)) events.now }
{
    for (at, event) in events.iter().enumerate() {
        if has_bad_policy(catalogue, event) {
            return Some(at);
        }
    }
    None
}

// The first fault of a setup with these parts.
pub(crate) fn setup_fault(
    modules: u16,
    live: u16,
    events: &[EventDef],
    catalogue: &Catalogue,
) -> Option<SetupFault>
    ensures { result ≡ specs.setup_fault (data_from modules live events.now catalogue.now) }
{
    if has_wrong_size(modules, live, events.len()) {
        return Some(SetupFault::TooMany);
    }
    if let Some(at) = bad_owner(modules, events) {
        return Some(SetupFault::BadOwner(at as u8));
    }
    if let Some(at) = bad_merge(events) {
        return Some(SetupFault::BadMerge(at as u8));
    }
    if let Some(at) = bad_up(events, catalogue) {
        return Some(SetupFault::BadUp(at + 1));
    }
    if let Some(at) = bad_default(events, catalogue) {
        return Some(SetupFault::BadDefault(at as u8));
    }
    if let Some(at) = bad_policy(events, catalogue) {
        return Some(SetupFault::BadPolicy(at as u8));
    }
    None
}
