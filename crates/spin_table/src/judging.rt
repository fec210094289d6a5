//! Whether a command is refused.

ghost use Rattle.std.specs.Prelude.{◌≡◌, ◌≤◌, ◌&&◌, IsTrue, not, length, MatchOption, Some, None};
ghost use Rattle.spin_values.specs.First.{first_of};
ghost use Rattle.spin_policy.specs.Verdicts.{is_install, verdict_of};
ghost use Rattle.spin_objects.specs.Units.{handlers_of, guards_of, policies_of};
ghost use Rattle.spin_policy.specs.Imposed.{forces_apart};
ghost use Rattle.spin_table.specs.Setups.{rules_of, has_authority};
ghost use Rattle.spin_table.specs.Units as units;
ghost use Rattle.spin_table.specs.Verdicts as verdicts;
ghost use Rattle.spin_table.specs.Refusals as specs;
ghost use Rattle.spin_table.specs.SetupOf.{data_of};
ghost use Rattle.spin_table.specs.declared.setup.TheConstants.{MAX_LIVE};

use crate::event::{Authority, EventDef};
use crate::live::{find_binding, is_live, live_of, name_unknown};
use crate::refusal::Refusal;
use crate::setup::Setup;
use crate::units::{
    find_guard, find_handler, has_parameter_kinds, has_signature, has_wrong_mode, raises_down,
    sets_argument,
};
use spin_code::{Act, Guards, Sincere};
use spin_objects::{Catalogue, NativeKind, Natives};
use spin_place::Binding;
use spin_policy::{Policy, Request, Verdict, judge};
use spin_values::EventType;
use spin_word::{Command, Mode, Op};

pub(crate) fn is_install(op: Op) -> bool
    ensures { result ≡ is_install op }
{
    matches!(op, Op::Install)
}

fn lacks_handler(catalogue: &Catalogue, c: &Command) -> bool
    ensures { result ≡ specs.lacks_handler (handlers_of catalogue.now) c.now }
{
    c.op.uses_handler() && (c.handler == 0 || c.handler > catalogue.handlers())
}

fn lacks_guard(catalogue: &Catalogue, c: &Command) -> bool
    ensures { result ≡ specs.lacks_guard (guards_of catalogue.now) c.now }
{
    c.op.uses_guard() && c.guard > catalogue.count()
}

fn lacks_binding(bindings: &[Binding], c: &Command) -> bool
    ensures { result ≡ specs.lacks_binding bindings.now c.now }
{
    c.op.uses_target() && !is_live(bindings, c.target)
        || name_unknown(bindings, &c.before)
        || name_unknown(bindings, &c.after)
}

// The signature and the act of the handler that the op uses, if it is there.
fn used_handler<'a>(catalogue: &'a Catalogue, c: &Command) -> Option<(&'a EventType, &'a Act)>
    ensures { let used = specs.used_handler (handlers_of catalogue.now) c.now in
        MatchOption result (used ≡ None) (λ h. used ≡ Some (record { sig = h.0.now; act = h.1.now })) }
{
    if !c.op.uses_handler() {
        return None;
    }
    find_handler(catalogue, c.handler)
}

fn has_wrong_signature(catalogue: &Catalogue, def: &EventDef, c: &Command) -> bool
    ensures { result
        ≡ specs.of_handler (handlers_of catalogue.now) c.now
        (λ h. not (units.same_signature h.sig def.now.sig)) }
{
    match used_handler(catalogue, c) {
        None => false,
        Some((sig, _)) => !has_signature(sig, &def.sig),
    }
}

fn has_wrong_kinds(catalogue: &Catalogue, def: &EventDef, c: &Command) -> bool
    ensures { result
        ≡ specs.of_guard (guards_of catalogue.now) c.now
        (λ g. not (units.same_parameter_kinds g.sig def.now.sig)) }
{
    if !c.op.uses_guard() {
        return false;
    }
    match find_guard(catalogue, c.guard) {
        None => false,
        Some(sig) => !has_parameter_kinds(sig, &def.sig),
    }
}

fn goes_down(catalogue: &Catalogue, c: &Command) -> bool
    ensures { result ≡ specs.goes_down (handlers_of catalogue.now) c.now }
{
    match used_handler(catalogue, c) {
        None => false,
        Some((_, act)) => raises_down(c.event, act),
    }
}

// The mode in which the handler would run.
fn mode_of(bindings: &[Binding], c: &Command) -> Mode
    ensures { result ≡ specs.mode_of bindings.now c.now c.now.op }
{
    match c.op {
        Op::Install => c.mode,
        Op::Replace => match find_binding(bindings, c.target) {
            Some(binding) => binding.mode,
            None => Mode::Plain,
        },
        _ => Mode::Plain,
    }
}

fn has_mode_fault(catalogue: &Catalogue, bindings: &[Binding], c: &Command) -> bool
    ensures { result ≡ specs.has_mode_fault (handlers_of catalogue.now) bindings.now c.now }
{
    match used_handler(catalogue, c) {
        None => false,
        Some((_, act)) => has_wrong_mode(mode_of(bindings, c), act),
    }
}

fn changes_an_argument(catalogue: &Catalogue, c: &Command) -> bool
    ensures { result
        ≡ specs.of_handler (handlers_of catalogue.now) c.now
        (λ h. units.sets_argument h.act) }
{
    match used_handler(catalogue, c) {
        None => false,
        Some((_, act)) => sets_argument(act),
    }
}

fn target_owner(bindings: &[Binding], c: &Command) -> Option<u8>
    ensures { result ≡ (verdicts.request_of bindings.now c.now).target_owner }
{
    if !c.op.uses_target() {
        return None;
    }
    find_binding(bindings, c.target).map(|binding| binding.requester)
}

fn request_of(bindings: &[Binding], c: &Command) -> Request
    requires few { length bindings.now ≤ MAX_LIVE }
    ensures { result ≡ verdicts.request_of bindings.now c.now }
{
    Request {
        op: c.op,
        requester: c.requester,
        handler: c.handler,
        target_owner: target_owner(bindings, c),
        live: live_of(bindings, c.requester) as u16,
    }
}

impl EventDef {
    // Whether its rules are given, or its native authoriser is there.
    pub(crate) fn has_authority(&self, natives: &Natives) -> bool
        ensures { result ≡ has_authority (policies_of natives.now) self.now.authority }
    {
        match &self.authority {
            Authority::Rules(_) => true,
            Authority::Native(native) => *native < natives.count(NativeKind::Authoriser),
        }
    }

    // The rules by which the owner answers, or its native authoriser.
    pub(crate) fn rules<'a>(&'a self, natives: &'a Natives) -> &'a Policy
        requires there { IsTrue (has_authority (policies_of natives.now) self.now.authority) }
        ensures { result.now ≡ rules_of (policies_of natives.now) self.now.authority }
    {
        match &self.authority {
            Authority::Rules(policy) => policy,
            Authority::Native(native) => natives.policy_of(*native),
        }
    }

    // What the owner's rules or its native authoriser, which is asked itself, answer to a request.
    fn judge(&self, natives: &Natives, request: &Request) -> Verdict
        requires there { IsTrue (has_authority (policies_of natives.now) self.now.authority) }
        requires sincere { ⟦<Natives as Sincere>⟧.sincere natives.now }
        ensures { result
            ≡ verdict_of (rules_of (policies_of natives.now) self.now.authority)
            request.now }
    {
        match &self.authority {
            Authority::Rules(policy) => judge(policy, request),
            Authority::Native(native) => natives.judge(*native, request),
        }
    }
}

// The rules by which the event's owner answers, or its native authoriser.
pub(crate) fn rules<'a>(setup: &'a Setup, def: &'a EventDef) -> &'a Policy
    requires there { IsTrue (has_authority (data_of setup.now).policies def.now.authority) }
    ensures { result.now ≡ rules_of (data_of setup.now).policies def.now.authority }
{
    def.rules(setup.catalogue().natives())
}

// What the event's owner, or its native authoriser, answers to a request.
fn judged(setup: &Setup, def: &EventDef, request: &Request) -> Verdict
    requires there { IsTrue (has_authority (data_of setup.now).policies def.now.authority) }
    requires sincere { ⟦<Catalogue as Sincere>⟧.sincere setup.now.catalogue }
    ensures { result
        ≡ verdict_of (rules_of (data_of setup.now).policies def.now.authority) request.now }
{
    def.judge(setup.catalogue().natives(), request)
}

// What the event's owner answers to a command of its own or of another module.
pub(crate) fn answer(setup: &Setup, def: &EventDef, bindings: &[Binding], c: &Command) -> Verdict
    requires few { length bindings.now ≤ MAX_LIVE }
    requires there { IsTrue (has_authority (data_of setup.now).policies def.now.authority) }
    requires sincere { ⟦<Catalogue as Sincere>⟧.sincere setup.now.catalogue }
    ensures { result ≡ verdicts.answer_to (data_of setup.now).policies def.now bindings.now c.now }
{
    if c.requester == def.owner {
        return Verdict::Allow;
    }
    judged(setup, def, &request_of(bindings, c))
}

// The rule that a verdict names, 0 being none.
fn named_rule(verdict: Verdict) -> u8
    ensures { result ≡ verdicts.named_rule verdict }
{
    match verdict {
        Verdict::Allow => 0,
        Verdict::Impose(rule) | Verdict::Force(rule) | Verdict::Deny(rule) => rule,
    }
}

fn is_denied(verdict: Verdict) -> bool
    ensures { result ≡ verdicts.is_denied verdict }
{
    matches!(verdict, Verdict::Deny(_))
}

fn forces_a_change_apart(setup: &Setup, def: &EventDef, answer: Verdict, c: &Command) -> bool
    requires there { IsTrue (has_authority (data_of setup.now).policies def.now.authority) }
    ensures { result
        ≡ (is_install c.now.op
        && forces_apart (rules_of (data_of setup.now).policies def.now.authority)
        answer
        && specs.of_handler (data_of setup.now).handlers c.now
        (λ h. units.sets_argument h.act)) }
{
    is_install(c.op)
        && rules(setup, def).runs_apart(answer)
        && changes_an_argument(setup.catalogue(), c)
}

// The first refusal that comes of what the command names.
fn unit_refusal(
    catalogue: &Catalogue,
    def: &EventDef,
    bindings: &[Binding],
    c: &Command,
) -> Option<Refusal>
    ensures { result
        ≡ first_of
        (specs.unit_refusals (handlers_of catalogue.now) (guards_of catalogue.now)
        def.now bindings.now c.now) }
{
    if lacks_handler(catalogue, c) {
        return Some(Refusal::UnknownHandler);
    }
    if lacks_guard(catalogue, c) {
        return Some(Refusal::UnknownGuard);
    }
    if lacks_binding(bindings, c) {
        return Some(Refusal::UnknownBinding);
    }
    if has_wrong_signature(catalogue, def, c) || has_wrong_kinds(catalogue, def, c) {
        return Some(Refusal::WrongType);
    }
    if goes_down(catalogue, c) {
        return Some(Refusal::Downward);
    }
    if has_mode_fault(catalogue, bindings, c) {
        return Some(Refusal::WrongMode);
    }
    None
}

// The first refusal that comes of the owner's answer and of the limit of bindings.
fn owner_refusal(
    setup: &Setup,
    def: &EventDef,
    bindings: &[Binding],
    c: &Command,
) -> Option<Refusal>
    requires few { length bindings.now ≤ MAX_LIVE }
    requires there { IsTrue (has_authority (data_of setup.now).policies def.now.authority) }
    requires sincere { ⟦<Catalogue as Sincere>⟧.sincere setup.now.catalogue }
    ensures { result
        ≡ first_of (specs.owner_refusals (data_of setup.now) def.now bindings.now c.now) }
{
    let answer = answer(setup, def, bindings, c);
    if is_denied(answer) {
        return Some(Refusal::Denied(named_rule(answer)));
    }
    if forces_a_change_apart(setup, def, answer, c) {
        return Some(Refusal::ForcedMode(named_rule(answer)));
    }
    if is_install(c.op) && bindings.len() >= setup.live() as usize {
        return Some(Refusal::TooMany);
    }
    None
}

// The first refusal of a command on an event with these bindings that applies, but for a conflict.
pub(crate) fn refusal(
    setup: &Setup,
    def: &EventDef,
    bindings: &[Binding],
    c: &Command,
) -> Option<Refusal>
    requires few { length bindings.now ≤ MAX_LIVE }
    requires there { IsTrue (has_authority (data_of setup.now).policies def.now.authority) }
    requires sincere { ⟦<Catalogue as Sincere>⟧.sincere setup.now.catalogue }
    ensures { result ≡ first_of (specs.refusals_at (data_of setup.now) def.now bindings.now c.now) }
{
    if u16::from(c.requester) >= setup.modules() {
        return Some(Refusal::UnknownModule);
    }
    match unit_refusal(setup.catalogue(), def, bindings, c) {
        Some(refusal) => Some(refusal),
        None => owner_refusal(setup, def, bindings, c),
    }
}
