//! The lines that declare who answers for an event, and its first default.

ghost use Rattle.std.specs.Prelude.{◌≡◌, ◌<◌, ◌≤◌, ℕ, false, nat_lt, List, length, slice_get};
ghost use Rattle.std.specs.Prelude.{Option, Some, None, OnOk, IfErr, IfSome, MatchOption};
ghost use Rattle.std.specs.List.{list_any};
ghost use Rattle.std.specs.Option.{option_map_or};
ghost use Rattle.spin_policy.specs.declared.rule.Rule.{Rule};
ghost use Rattle.spin_policy.specs.declared.policy.TheConstants.{MAX_RULES};
ghost use Rattle.spin_policy.specs.Verdicts.{has_wrong_guards};
ghost use Rattle.spin_table.specs.Setups.{rules_if};
ghost use Rattle.spin_grammar.specs.Lines as said;
ghost use Rattle.spin_grammar.specs.declared.fault.Fault.TheVariants as fault;
ghost use Rattle.spin_script.specs.States.{NativeData, natives_seen, policies, given_rules};
ghost use Rattle.spin_script.specs.States.{with_event, with_rule, with_authoriser, with_default};
ghost use Rattle.spin_script.specs.States as states;
ghost use Rattle.spin_script.specs.Checks as specs;
ghost use Rattle.spin_values.specs.First.{first_of};
ghost use Rattle.spin_script.specs.Checks.{rule_checks, authoriser_checks, default_checks};
ghost use Rattle.spin_script.specs.declared.draft.Draft.{Draft};
ghost use Rattle.spin_script.specs.Inner.Drafts.{so_far};
ghost use Rattle.spin_script.specs.Inner.Reader.{Adds, Judges};

use crate::draft::Draft;
use crate::units::guard_count;
use spin_grammar::{Cause, Fault};
use spin_objects::{Catalogue, NativeKind};
use spin_policy::{MAX_RULES, Policy, PolicyFault, Rule};
use spin_table::{Authority, EventDef, are_all_fit, is_fit_handler, is_fit_rule};
use spin_values::Text;
use spin_word::Mode;

// The event of that number, if there is one.
fn event_at(draft: &Draft, event: u8) -> Option<&EventDef>
    ensures { MatchOption result (slice_get draft.now.events.items event ≡ None)
        (λ def. slice_get draft.now.events.items event ≡ Some def.now) }
{
    draft.events.get(usize::from(event))
}

// Whether one of the guards isn't there, where there are so many.
fn any_over(count: u16, guards: &[u16]) -> bool
    ensures { result ≡ list_any (nat_lt count) guards.now }
{
    guards.iter().any(|guard| *guard > count)
}

fn imposes_unknown(guards: u16, rule: &Rule) -> bool
    ensures { result ≡ specs.imposes_unknown guards rule.now }
{
    any_over(guards, rule.effect.guards())
}

fn is_over(count: u16, handler: Option<u16>) -> bool
    ensures { result ≡ option_map_or (nat_lt count) handler false }
{
    match handler {
        None => false,
        Some(handler) => handler > count,
    }
}

// Whether the handler or a guard of the rule isn't there, where there are so many.
fn speaks_of_unknown(handlers: u16, guards: u16, rule: &Rule) -> bool
    ensures { result ≡ specs.speaks_of_unknown handlers guards rule.now }
{
    is_over(handlers, rule.handler) || imposes_unknown(guards, rule)
}

// How many rules were given.
fn rule_count(authority: &Authority) -> usize
    ensures { result ≡ length (given_rules authority.now) }
{
    match authority {
        Authority::Rules(rules) => rules.as_slice().len(),
        Authority::Native(_) => 0,
    }
}

fn is_native(authority: &Authority) -> bool
    ensures { result ≡ states.is_native authority.now }
{
    match authority {
        Authority::Rules(_) => false,
        Authority::Native(_) => true,
    }
}

// Why the rule can't be the event's next one.
fn rule_cause(catalogue: &Catalogue, def: &EventDef, rule: &Rule) -> Option<Cause>
    ensures { (draft : Draft) → result ≡ first_of
        (rule_checks (so_far draft catalogue.now) rule.now (Some def.now)) }
{
    if rule_count(&def.authority) >= MAX_RULES {
        return Some(Cause::Limit);
    }
    if speaks_of_unknown(catalogue.handlers(), guard_count(catalogue), rule) {
        return Some(Cause::Undeclared);
    }
    if !is_fit_rule(catalogue, def, rule) || is_native(&def.authority) {
        return Some(Cause::Mismatch);
    }
    None
}

// Adds a rule to those that were given, which are fewer than [`MAX_RULES`].
fn add_to(def: &mut EventDef, rule: Rule) -> Result<(), Fault>
    requires guards { has_wrong_guards rule.effect ≡ false }
    requires few { length (given_rules def.old.authority) < MAX_RULES }
    requires rules { states.is_native def.old.authority ≡ false }
    ensures added { OnOk result (def.new ≡ with_rule rule def.old) }
    ensures refused { IfErr result (λ f. f ≡ fault.NoMemory) }
{
    match &mut def.authority {
        Authority::Rules(policy) => match policy.push(rule) {
            Ok(()) => Ok(()),
            Err(PolicyFault::NoMemory) => Err(Fault::NoMemory),
            Err(_) => unreachable!(),
        },
        Authority::Native(_) => unreachable!(),
    }
}

// Adds a rule to those that were given for the event, which are fewer than [`MAX_RULES`].
fn push_rule(events: &mut Vec<EventDef>, event: u8, rule: Rule) -> Result<(), Fault>
    requires guards { has_wrong_guards rule.effect ≡ false }
    requires few { IfSome (slice_get events.old.items event)
        (λ def. length (given_rules def.authority) < MAX_RULES) }
    requires rules { IfSome (slice_get events.old.items event)
        (λ def. states.is_native def.authority ≡ false) }
    ensures added { OnOk result
        (events.new.items ≡ with_event (with_rule rule) event events.old.items) }
    ensures refused { IfErr result (λ f. f ≡ fault.NoMemory) }
{
    let Some(def) = events.get_mut(usize::from(event)) else {
        return Ok(());
    };
    add_to(def, rule)
}

// Adds a rule.
pub(crate) fn add_rule(
    draft: &mut Draft,
    catalogue: &Catalogue,
    event: u8,
    rule: Rule,
) -> Result<(), Fault>
    requires { has_wrong_guards rule.effect ≡ false }
    ensures { (number : ℕ) → Adds (natives_seen catalogue.now.natives)
        (so_far draft.old catalogue.now) number (said.Rules event rule) result
        (so_far draft.new catalogue.now) }
{
    let Some(def) = event_at(draft, event) else {
        return Err(Fault::Bad(Cause::Undeclared));
    };
    if let Some(cause) = rule_cause(catalogue, def, &rule) {
        return Err(Fault::Bad(cause));
    }
    push_rule(&mut draft.events, event, rule)?;
    Ok(())
}

// The policy of the native authoriser of that index, if there is one.
fn policy_rules(catalogue: &Catalogue, native: Option<u16>) -> &[Rule]
    requires { IfSome native (λ at. at < length (policies (natives_seen catalogue.now.natives))) }
    ensures { result.now ≡ rules_if (specs.policy_at (natives_seen catalogue.now.natives) native) }
{
    match native {
        None => &[],
        Some(native) => catalogue.natives().policy_of(native).as_slice(),
    }
}

// Whether one of the rules imposes a guard that isn't there, where there are so many.
fn any_imposes_unknown(guards: u16, rules: &[Rule]) -> bool
    ensures { result ≡ list_any (specs.imposes_unknown guards) rules.now }
{
    rules.iter().any(|rule| imposes_unknown(guards, rule))
}

// The native authoriser of that index, or why it can't answer for the event.
fn next_authoriser(catalogue: &Catalogue, def: &EventDef, native: Option<u16>) -> Result<u16, Cause>
    requires { IfSome native (λ at. at < length (policies (natives_seen catalogue.now.natives))) }
    ensures { (draft : Draft) → Judges (λ at. native ≡ Some at)
        (first_of (authoriser_checks (so_far draft catalogue.now)
        (specs.policy_at (natives_seen catalogue.now.natives) native) (Some def.now))) result }
{
    let rules = policy_rules(catalogue, native);
    if any_imposes_unknown(guard_count(catalogue), rules) {
        return Err(Cause::Undeclared);
    }
    if rule_count(&def.authority) != 0 || !are_all_fit(catalogue, def, rules) {
        return Err(Cause::Mismatch);
    }
    let Some(native) = native else {
        return Err(Cause::Native);
    };
    if is_native(&def.authority) {
        return Err(Cause::Repeated);
    }
    Ok(native)
}

// Makes the native authoriser of that index answer for the event, where it is there.
fn set_authoriser(events: &mut Vec<EventDef>, event: u8, native: u16)
    ensures { events.new.items ≡ with_event (with_authoriser native) event events.old.items }
{
    if let Some(def) = events.get_mut(usize::from(event)) {
        def.authority = Authority::Native(native);
    }
}

// Adds a native authoriser.
pub(crate) fn add_authoriser(
    draft: &mut Draft,
    catalogue: &Catalogue,
    event: u8,
    name: Text,
) -> Result<(), Fault>
    ensures { (number : ℕ) → Adds (natives_seen catalogue.now.natives)
        (so_far draft.old catalogue.now) number (said.Authoriser event name) result
        (so_far draft.new catalogue.now) }
{
    let Some(def) = event_at(draft, event) else {
        return Err(Fault::Bad(Cause::Undeclared));
    };
    let native = catalogue.natives().find(NativeKind::Authoriser, &name);
    let native = next_authoriser(catalogue, def, native)?;
    set_authoriser(&mut draft.events, event, native);
    Ok(())
}

// Why the handler can't be the event's first default.
#[tactic(auto, unfolding(crate::specs::Checks::cannot_serve))]
fn default_cause(catalogue: &Catalogue, event: u8, def: &EventDef, handler: u16) -> Option<Cause>
    ensures { (draft : Draft) → result ≡ first_of
        (default_checks (so_far draft catalogue.now) event handler (Some def.now)) }
{
    if handler > catalogue.handlers() {
        return Some(Cause::Undeclared);
    }
    if !is_fit_handler(catalogue, event, def, Mode::Plain, handler) {
        return Some(Cause::Mismatch);
    }
    if def.first_default != 0 {
        return Some(Cause::Repeated);
    }
    None
}

// Makes the handler the event's first default, where the event is there.
fn set_default(events: &mut Vec<EventDef>, event: u8, handler: u16)
    ensures { events.new.items ≡ with_event (with_default handler) event events.old.items }
{
    if let Some(def) = events.get_mut(usize::from(event)) {
        def.first_default = handler;
    }
}

// Adds a first default.
pub(crate) fn add_default(
    draft: &mut Draft,
    catalogue: &Catalogue,
    event: u8,
    handler: u16,
) -> Result<(), Fault>
    ensures { (number : ℕ) → Adds (natives_seen catalogue.now.natives)
        (so_far draft.old catalogue.now) number (said.Default event handler) result
        (so_far draft.new catalogue.now) }
{
    let Some(def) = event_at(draft, event) else {
        return Err(Fault::Bad(Cause::Undeclared));
    };
    if let Some(cause) = default_cause(catalogue, event, def, handler) {
        return Err(Fault::Bad(cause));
    }
    set_default(&mut draft.events, event, handler);
    Ok(())
}
