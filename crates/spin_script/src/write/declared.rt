//! The lines of events, endpoints, handlers, guards and defaults.

ghost use Rattle.std.specs.Prelude.{◌≡◌, ◌++◌, ◌∷◌, [], ◌-◌, ◌<◌, ◌≤◌, length, map, slice_get, Some, OnOk};
ghost use Rattle.std.specs.List.{flat_map, enumerate_from};
ghost use Rattle.spin_objects.specs.declared.unit.Body.{Body};
ghost use Rattle.spin_objects.specs.declared.unit.Check.{Check};
ghost use Rattle.spin_objects.specs.Units.{handlers_of, guards_of};
ghost use Rattle.spin_table.specs.SetupOf.{data_of};
ghost use Rattle.spin_grammar.specs.Lines as said;
ghost use Rattle.spin_grammar.specs.Lines.{form};
ghost use Rattle.spin_script.specs.States.{natives_seen};
ghost use Rattle.spin_script.specs.Canonical.{spoken, line_text, text_of_lines, by_value, event_line};
ghost use Rattle.spin_script.specs.Canonical.{endpoint_line, handler_line, guard_line, default_lines};

use crate::write::code::{put_merge, put_steps, put_test};
use crate::write::words::{put_guard_signature, put_name, put_signature};
use spin_code::{Act, Guards, Test};
use spin_objects::{Catalogue, NativeKind};
use spin_table::{EventDef, Setup};
use spin_text::{end_line, put_number, put_word};
use spin_values::{EventType, NoMemory, Octets, Text};

fn put_event(out: &mut Octets, event: u8, def: &EventDef) -> Result<(), NoMemory>
    ensures { OnOk result (out.new ≡ out.old ++ line_text (event_line (event, def.now))) }
{
    out.extend_from_slice(b"event")?;
    put_number(out, u64::from(event))?;
    put_number(out, u64::from(def.owner))?;
    put_signature(out, &def.sig)?;
    put_merge(out, &def.merge)?;
    end_line(out)
}

// Appends the lines of all events.
pub(super) fn put_events(out: &mut Octets, setup: &Setup) -> Result<(), NoMemory>
    ensures { OnOk result (out.new ≡ out.old
        ++ text_of_lines (map event_line (enumerate_from 0 (data_of setup.now).events))) }
{
    for event in 0..setup.events() {
        put_event(out, event, setup.event(event))?;
    }
    Ok(())
}

fn put_endpoint(out: &mut Octets, endpoint: usize, name: &Text) -> Result<(), NoMemory>
    ensures { OnOk result (out.new ≡ out.old ++ line_text (endpoint_line (endpoint, name.now))) }
{
    out.extend_from_slice(b"endpoint")?;
    put_number(out, endpoint as u64)?;
    put_name(out, name)?;
    end_line(out)
}

// Appends the lines of all endpoints.
pub(super) fn put_endpoints(out: &mut Octets, endpoints: &[Text]) -> Result<(), NoMemory>
    ensures { OnOk result (out.new ≡ out.old
        ++ text_of_lines (map endpoint_line (enumerate_from 0 endpoints.now))) }
{
    for (endpoint, name) in endpoints.iter().enumerate() {
        put_endpoint(out, endpoint, name)?;
    }
    Ok(())
}

// Appends the line of a native handler or guard, which begins with this word.
fn put_native(out: &mut Octets, first: &[u8], number: u16, name: &Text) -> Result<(), NoMemory>
    ensures { OnOk result (out.new ≡ out.old
        ++ ((first.now ++ spoken (form (said.NativeHandler number name.now))) ++ 10 ∷ [])) }
{
    out.extend_from_slice(first)?;
    put_number(out, u64::from(number))?;
    put_word(out, b"native")?;
    put_name(out, name)?;
    end_line(out)
}

// Appends the line of a coded handler.
fn put_coded_handler(
    out: &mut Octets,
    number: u16,
    sig: &EventType,
    act: &Act,
) -> Result<(), NoMemory>
    ensures { OnOk result
        (out.new ≡ out.old ++ line_text (said.Handler number sig.now act.now.steps)) }
{
    out.extend_from_slice(b"handler")?;
    put_number(out, u64::from(number))?;
    put_signature(out, sig)?;
    put_steps(out, act.steps.as_slice())?;
    end_line(out)
}

// Appends the line of a handler that is there.
fn put_handler(out: &mut Octets, catalogue: &Catalogue, number: u16) -> Result<(), NoMemory>
    requires first { 0 < number }
    requires last { number ≤ length (handlers_of catalogue.now) }
    ensures { (b : Body) → slice_get catalogue.now.bodies (number - 1) ≡ Some b
        → OnOk result (out.new ≡ out.old
        ++ line_text (handler_line (natives_seen catalogue.now.natives) number b)) }
{
    match catalogue.native_handler(number) {
        None => {
            let sig = catalogue.type_of(number);
            put_coded_handler(out, number, sig, catalogue.act_of(number))
        }
        Some(native) => {
            let name = catalogue.natives().name_of(NativeKind::Handler, native);
            put_native(out, b"handler", number, name)
        }
    }
}

// Appends the lines of all handlers.
pub(super) fn put_handlers(out: &mut Octets, catalogue: &Catalogue) -> Result<(), NoMemory>
    ensures { OnOk result (out.new ≡ out.old
        ++ text_of_lines (map (λ p. handler_line (natives_seen catalogue.now.natives) p.0 p.1)
        (enumerate_from 1 catalogue.now.bodies))) }
{
    for at in 0..catalogue.handlers() {
        put_handler(out, catalogue, at + 1)?;
    }
    Ok(())
}

// Appends the line of a coded guard.
fn put_coded_guard(
    out: &mut Octets,
    number: u16,
    sig: &EventType,
    test: &Test,
) -> Result<(), NoMemory>
    ensures { OnOk result
        (out.new ≡ out.old ++ line_text (said.Guard number (by_value sig.now) test.now)) }
{
    out.extend_from_slice(b"guard")?;
    put_number(out, u64::from(number))?;
    put_guard_signature(out, sig)?;
    put_test(out, test)?;
    end_line(out)
}

// Appends the line of a guard that is there.
fn put_guard(out: &mut Octets, catalogue: &Catalogue, number: u16) -> Result<(), NoMemory>
    requires first { 0 < number }
    requires last { number ≤ length (guards_of catalogue.now) }
    ensures { (c : Check) → slice_get catalogue.now.checks (number - 1) ≡ Some c
        → OnOk result (out.new ≡ out.old
        ++ line_text (guard_line (natives_seen catalogue.now.natives) number c)) }
{
    match catalogue.native_guard(number) {
        None => {
            let sig = catalogue.guard_type(number);
            put_coded_guard(out, number, sig, catalogue.test_of(number))
        }
        Some(native) => {
            let name = catalogue.natives().name_of(NativeKind::Guard, native);
            put_native(out, b"guard", number, name)
        }
    }
}

// Appends the lines of all guards.
pub(super) fn put_guards(out: &mut Octets, catalogue: &Catalogue) -> Result<(), NoMemory>
    ensures { OnOk result (out.new ≡ out.old
        ++ text_of_lines (map (λ p. guard_line (natives_seen catalogue.now.natives) p.0 p.1)
        (enumerate_from 1 catalogue.now.checks))) }
{
    for at in 0..catalogue.count() {
        put_guard(out, catalogue, at + 1)?;
    }
    Ok(())
}

fn put_default(out: &mut Octets, event: u8, handler: u16) -> Result<(), NoMemory>
    ensures { OnOk result (out.new ≡ out.old ++ text_of_lines (default_lines event handler)) }
{
    if handler == 0 {
        return Ok(());
    }
    out.extend_from_slice(b"default")?;
    put_number(out, u64::from(event))?;
    put_number(out, u64::from(handler))?;
    end_line(out)
}

// Appends the lines of the defaults of all events.
pub(super) fn put_defaults(out: &mut Octets, setup: &Setup) -> Result<(), NoMemory>
    ensures { OnOk result (out.new ≡ out.old
        ++ text_of_lines (flat_map (λ p. default_lines p.0 p.1.first_default)
        (enumerate_from 0 (data_of setup.now).events))) }
{
    for event in 0..setup.events() {
        put_default(out, event, setup.event(event).first_default)?;
    }
    Ok(())
}
