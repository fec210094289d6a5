//! The lines that declare handlers and guards.

ghost use Rattle.std.specs.Prelude.{◌≡◌, ◌+◌, ◌<◌, ◌≤◌, ℕ, ◌++◌, ◌∷◌, [], List};
ghost use Rattle.std.specs.Prelude.{length, None, Ok, ⊤, IfOk, IfErr, MatchOption};
ghost use Rattle.std.specs.List.{list_any};
ghost use Rattle.spin_code.specs.declared.act.ActStep.{ActStep};
ghost use Rattle.spin_code.specs.declared.test.Test.{Test};
ghost use Rattle.spin_code.specs.Check.{act_check, test_check};
ghost use Rattle.spin_code.specs.Size.{test_depth, is_step_deep};
ghost use Rattle.spin_objects.specs.Units.{HandlerUnit, GuardUnit, handlers_of, guards_of};
ghost use Rattle.spin_objects.specs.Units.{native_handlers, native_guards, unit_of_body, unit_of_check};
ghost use Rattle.spin_objects.specs.Adding.{handler_refusal, guard_refusal};
ghost use Rattle.spin_grammar.specs.Lines as said;
ghost use Rattle.spin_code.specs.declared.depth.TheConstants.{MAX_DEPTH};
ghost use Rattle.spin_grammar.specs.declared.limits.TheConstants.{LAST_HANDLER, LAST_GUARD};
ghost use Rattle.spin_grammar.specs.Lines.{IsKept, IsWithin};
ghost use Rattle.spin_script.specs.States.{ScriptState, NativeData, natives_seen};
ghost use Rattle.spin_script.specs.Checks as specs;
ghost use Rattle.spin_values.specs.First.{first_of};
ghost use Rattle.spin_script.specs.Checks.{checked, step_checks, checks};
ghost use Rattle.spin_script.specs.Inner.Drafts.{state, so_far};
ghost use Rattle.spin_script.specs.Inner.Reader.{Adds, Judges};
ghost use Rattle.spin_script.specs.Inner.Declaring.{Grows};
ghost use Rattle.spin_grammar.specs.declared.fault.Fault.TheVariants as fault;

use crate::declare::act_cause;
use crate::draft::Draft;
use spin_code::{Act, ActStep, Guards, Sincere, Steplist, Test, check_act, check_test};
use spin_grammar::{Cause, Fault};
use spin_objects::{Body, Catalogue, CatalogueFault, Check, NativeKind};
use spin_table::{EventDef, raises_fit};
use spin_values::{EventType, Text};

fn names_unknown(endpoints: usize, events: usize, step: &ActStep) -> bool
    ensures { result ≡ specs.step_names_unknown endpoints events step.now }
{
    match step {
        ActStep::Send { endpoint, .. } => usize::from(*endpoint) >= endpoints,
        ActStep::Up { event, .. } => usize::from(*event) >= events,
        ActStep::Layer { event, .. } => usize::from(*event) >= events,
        _ => false,
    }
}

// Whether a step sends to or raises what isn't there, where there are so many endpoints and events.
fn any_unknown(endpoints: usize, events: usize, steps: &[ActStep]) -> bool
    ensures { result ≡ list_any (specs.step_names_unknown endpoints events) steps.now }
{
    steps
        .iter()
        .any(|step| names_unknown(endpoints, events, step))
}

// Why an act can't be done, whose steps send to and raise what is declared so far.
fn step_cause(endpoints: usize, events: &[EventDef], act: &Act) -> Option<Cause>
    ensures { result ≡ first_of (step_checks endpoints events.now act.now.steps) }
{
    if any_unknown(endpoints, events.len(), act.steps.as_slice()) {
        return Some(Cause::Undeclared);
    }
    if !raises_fit(events, act) {
        return Some(Cause::Mismatch);
    }
    None
}

// How many guards there are.
pub(crate) fn guard_count(catalogue: &Catalogue) -> u16
    ensures { result ≡ length (guards_of catalogue.now) }
{
    catalogue.count()
}

// Adds a handler that isn't refused.
fn keep_handler(catalogue: &mut Catalogue, body: Body) -> Result<(), Fault>
    requires sincere { ⟦<Catalogue as Sincere>⟧.sincere catalogue.old }
    requires fit { handler_refusal body (length (native_handlers catalogue.old.natives))
        (length (handlers_of catalogue.old)) ≡ None }
    ensures sincere { ⟦<Catalogue as Sincere>⟧.sincere catalogue.new }
    ensures natives { catalogue.new.natives ≡ catalogue.old.natives }
    ensures guards { guards_of catalogue.new ≡ guards_of catalogue.old }
    ensures bodies { IfOk result (λ _. catalogue.new.bodies ≡ catalogue.old.bodies ++ body ∷ []) }
    ensures checks { IfOk result (λ _. catalogue.new.checks ≡ catalogue.old.checks) }
    ensures added { IfOk result (λ _. handlers_of catalogue.new ≡ handlers_of catalogue.old
        ++ unit_of_body (native_handlers catalogue.old.natives) body ∷ []) }
    ensures refused { IfErr result (λ f. f ≡ fault.NoMemory) }
{
    match catalogue.add_handler(body) {
        Ok(_) => Ok(()),
        Err(CatalogueFault::NoMemory) => Err(Fault::NoMemory),
        Err(_) => unreachable!(),
    }
}

// Adds a guard that isn't refused.
fn keep_guard(catalogue: &mut Catalogue, check: Check) -> Result<(), Fault>
    requires sincere { ⟦<Catalogue as Sincere>⟧.sincere catalogue.old }
    requires fit { guard_refusal check (length (native_guards catalogue.old.natives))
        (length (guards_of catalogue.old)) ≡ None }
    ensures sincere { ⟦<Catalogue as Sincere>⟧.sincere catalogue.new }
    ensures natives { catalogue.new.natives ≡ catalogue.old.natives }
    ensures handlers { handlers_of catalogue.new ≡ handlers_of catalogue.old }
    ensures checks { IfOk result (λ _. catalogue.new.checks ≡ catalogue.old.checks ++ check ∷ []) }
    ensures bodies { IfOk result (λ _. catalogue.new.bodies ≡ catalogue.old.bodies) }
    ensures added { IfOk result (λ _. guards_of catalogue.new ≡ guards_of catalogue.old
        ++ unit_of_check (native_guards catalogue.old.natives) check ∷ []) }
    ensures refused { IfErr result (λ f. f ≡ fault.NoMemory) }
{
    match catalogue.add_guard(check) {
        Ok(_) => Ok(()),
        Err(CatalogueFault::NoMemory) => Err(Fault::NoMemory),
        Err(_) => unreachable!(),
    }
}

// Why the act can't be that of a handler of this signature, where its steps send to and raise what is declared so far.
fn act_fault(endpoints: usize, events: &[EventDef], sig: &EventType, act: &Act) -> Option<Cause>
    ensures first { result ≡ first_of (checked (act_check act.now sig.now)
        (step_checks endpoints events.now act.now.steps)) }
    ensures right { MatchOption result (act_check act.now sig.now ≡ Ok tt) (λ _. ⊤) }
{
    if let Err(fault) = check_act(act, sig) {
        return Some(act_cause(fault));
    }
    step_cause(endpoints, events, act)
}

// The act of these steps for the next handler, or why it can't be that.
fn next_act(
    draft: &Draft,
    handlers: u16,
    handler: u16,
    sig: &EventType,
    steps: Option<Steplist>,
) -> Result<Act, Cause>
    requires { handlers ≤ LAST_HANDLER }
    ensures first { (n : NativeData) (hs : List HandlerUnit) (gs : List GuardUnit) (kept : List ActStep)
        → length hs ≡ handlers → IsKept (list_any is_step_deep) steps kept
        → Judges (λ act. act.steps ≡ kept)
        (first_of (checks n (state draft.now hs gs) (said.Handler handler sig.now kept))) result }
    ensures next { IfOk result (λ _. handler ≡ handlers + 1) }
    ensures right { IfOk result (λ act. act_check act sig.now ≡ Ok tt) }
{
    if handler != handlers + 1 {
        return Err(Cause::Next);
    }
    let Some(steps) = steps else {
        return Err(Cause::TooDeep);
    };
    let act = Act { steps };
    match act_fault(draft.endpoints.len(), draft.events.as_slice(), sig, &act) {
        Some(cause) => Err(cause),
        None => Ok(act),
    }
}

// Adds a handler, whose steps are `None` where they are too deep.
pub(crate) fn add_handler(
    draft: &mut Draft,
    catalogue: &mut Catalogue,
    handler: u16,
    sig: EventType,
    steps: Option<Steplist>,
) -> Result<(), Fault>
    requires range { handler ≤ LAST_HANDLER }
    requires sincere { ⟦<Catalogue as Sincere>⟧.sincere catalogue.old }
    ensures sincere { ⟦<Catalogue as Sincere>⟧.sincere catalogue.new }
    ensures natives { catalogue.new.natives ≡ catalogue.old.natives }
    ensures adds { (number : ℕ) (kept : List ActStep) → IsKept (list_any is_step_deep) steps kept
        → Adds (natives_seen catalogue.old.natives) (so_far draft.old catalogue.old) number
        (said.Handler handler sig kept) result (so_far draft.new catalogue.new) }
    ensures grows { (kept : List ActStep) → IsKept (list_any is_step_deep) steps kept
        → Grows (natives_seen catalogue.old.natives) catalogue.old.bodies catalogue.old.checks
        (said.Handler handler sig kept) result catalogue.new.bodies catalogue.new.checks }
{
    let act = next_act(draft, catalogue.handlers(), handler, &sig, steps)?;
    keep_handler(catalogue, Body::Coded(sig, act))?;
    Ok(())
}

// The act of the handler that was added last.
fn last_act(catalogue: &Catalogue, handler: u16) -> &Act
    requires some { 0 < handler }
    requires last { handler ≡ length (handlers_of catalogue.now) }
    ensures { (units : List HandlerUnit) (unit : HandlerUnit)
        → handlers_of catalogue.now ≡ units ++ unit ∷ [] → result.now ≡ unit.act }
{
    catalogue.act_of(handler)
}

// Adds a native handler.
pub(crate) fn add_native_handler(
    draft: &mut Draft,
    catalogue: &mut Catalogue,
    handler: u16,
    name: Text,
) -> Result<(), Fault>
    requires range { handler ≤ LAST_HANDLER }
    requires sincere { ⟦<Catalogue as Sincere>⟧.sincere catalogue.old }
    ensures sincere { ⟦<Catalogue as Sincere>⟧.sincere catalogue.new }
    ensures natives { catalogue.new.natives ≡ catalogue.old.natives }
    ensures adds { (number : ℕ) → Adds (natives_seen catalogue.old.natives)
        (so_far draft.old catalogue.old) number (said.NativeHandler handler name) result
        (so_far draft.new catalogue.new) }
    ensures grows { Grows (natives_seen catalogue.old.natives) catalogue.old.bodies catalogue.old.checks
        (said.NativeHandler handler name) result catalogue.new.bodies catalogue.new.checks }
{
    if handler != catalogue.handlers() + 1 {
        return Err(Fault::Bad(Cause::Next));
    }
    let Some(native) = catalogue.natives().find(NativeKind::Handler, &name) else {
        return Err(Fault::Bad(Cause::Native));
    };
    keep_handler(catalogue, Body::Native(native))?;
    let act = last_act(catalogue, handler);
    if let Some(cause) = step_cause(draft.endpoints.len(), draft.events.as_slice(), act) {
        return Err(Fault::Bad(cause));
    }
    Ok(())
}

// The test for the next guard, or why it can't be that.
fn next_test(guards: u16, guard: u16, sig: &EventType, test: Option<Test>) -> Result<Test, Cause>
    requires { guards ≤ LAST_GUARD }
    ensures first { (n : NativeData) (s : ScriptState) (kept : Test) → length s.guards ≡ guards
        → IsWithin test_depth MAX_DEPTH test kept
        → Judges (λ t. t ≡ kept) (first_of (checks n s (said.Guard guard sig.now kept))) result }
    ensures next { IfOk result (λ _. guard ≡ guards + 1) }
    ensures right { IfOk result (λ t. test_check t sig.now ≡ Ok tt) }
{
    if guard != guards + 1 {
        return Err(Cause::Next);
    }
    let Some(test) = test else {
        return Err(Cause::TooDeep);
    };
    if let Err(fault) = check_test(&test, sig) {
        return Err(act_cause(fault));
    }
    Ok(test)
}

// Adds a guard, whose test is `None` where it is too deep.
pub(crate) fn add_guard(
    draft: &mut Draft,
    catalogue: &mut Catalogue,
    guard: u16,
    sig: EventType,
    test: Option<Test>,
) -> Result<(), Fault>
    requires range { guard ≤ LAST_GUARD }
    requires sincere { ⟦<Catalogue as Sincere>⟧.sincere catalogue.old }
    ensures sincere { ⟦<Catalogue as Sincere>⟧.sincere catalogue.new }
    ensures natives { catalogue.new.natives ≡ catalogue.old.natives }
    ensures adds { (number : ℕ) (kept : Test) → IsWithin test_depth MAX_DEPTH test kept
        → Adds (natives_seen catalogue.old.natives) (so_far draft.old catalogue.old) number
        (said.Guard guard sig kept) result (so_far draft.new catalogue.new) }
    ensures grows { (kept : Test) → IsWithin test_depth MAX_DEPTH test kept
        → Grows (natives_seen catalogue.old.natives) catalogue.old.bodies catalogue.old.checks
        (said.Guard guard sig kept) result catalogue.new.bodies catalogue.new.checks }
{
    let test = next_test(guard_count(catalogue), guard, &sig, test)?;
    keep_guard(catalogue, Check::Coded(sig, test))?;
    Ok(())
}

// Adds a native guard.
pub(crate) fn add_native_guard(
    draft: &mut Draft,
    catalogue: &mut Catalogue,
    guard: u16,
    name: Text,
) -> Result<(), Fault>
    requires range { guard ≤ LAST_GUARD }
    requires sincere { ⟦<Catalogue as Sincere>⟧.sincere catalogue.old }
    ensures sincere { ⟦<Catalogue as Sincere>⟧.sincere catalogue.new }
    ensures natives { catalogue.new.natives ≡ catalogue.old.natives }
    ensures adds { (number : ℕ) → Adds (natives_seen catalogue.old.natives)
        (so_far draft.old catalogue.old) number (said.NativeGuard guard name) result
        (so_far draft.new catalogue.new) }
    ensures grows { Grows (natives_seen catalogue.old.natives) catalogue.old.bodies catalogue.old.checks
        (said.NativeGuard guard name) result catalogue.new.bodies catalogue.new.checks }
{
    if guard != guard_count(catalogue) + 1 {
        return Err(Fault::Bad(Cause::Next));
    }
    let Some(native) = catalogue.natives().find(NativeKind::Guard, &name) else {
        return Err(Fault::Bad(Cause::Native));
    };
    keep_guard(catalogue, Check::Native(native))?;
    Ok(())
}
