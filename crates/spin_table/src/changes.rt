//! The bindings of an event after a command.

ghost use Rattle.std.specs.Prelude.{◌≡◌, ◌≤◌, ◌<◌, ◌++◌, ◌==◌, if◌then◌else◌, not, [], ◌∷◌};
ghost use Rattle.std.specs.Prelude.{IfOk, map, filter, length};
ghost use Rattle.spin_policy.specs.Imposed.{imposed_guards, forced_place};
ghost use Rattle.spin_table.specs.Steps as specs;

use spin_place::Binding;
use spin_policy::{Forced, Policy, Verdict};
use spin_values::{NoMemory, Numbers, Sequence};
use spin_word::{Command, Mode, NO_BINDING, Op, Place};
use std::alloc::Global;

// Bindings in order.
pub(crate) type Bindings = Sequence<Binding>;

fn place_under(forced: Forced, asked: Place) -> Place
    ensures { result ≡ specs.place_under forced asked }
{
    match forced {
        Forced::Keep => asked,
        Forced::First => Place::First,
        Forced::Last => Place::Last,
    }
}

fn numbers_under(forced: Forced, asked: [u16; 4]) -> [u16; 4]
    ensures { result ≡ specs.numbers_under forced asked }
{
    match forced {
        Forced::Keep => asked,
        Forced::First | Forced::Last => [NO_BINDING, NO_BINDING, NO_BINDING, NO_BINDING],
    }
}

fn mode_under(apart: bool, asked: Mode) -> Mode
    ensures { result ≡ specs.mode_under apart asked }
{
    if apart { Mode::Async } else { asked }
}

fn copy_numbers(alloc: Global, numbers: &[u16]) -> Result<Numbers, NoMemory>
    ensures { IfOk result (λ copy. copy ≡ numbers.now) }
{
    Numbers::from_slice(alloc, numbers)
}

// The binding that the command installs under this number.
pub(crate) fn installed(
    alloc: Global,
    rules: &Policy,
    verdict: Verdict,
    number: u16,
    c: &Command,
) -> Result<Binding, NoMemory>
    ensures { IfOk result (λ binding. binding ≡ specs.installed rules.now verdict number c.now) }
{
    let forced = rules.forced(verdict);
    Ok(Binding {
        number,
        requester: c.requester,
        handler: c.handler,
        own_guard: c.guard,
        imposed: copy_numbers(alloc, rules.imposed(verdict))?,
        place: place_under(forced, c.place),
        before: numbers_under(forced, c.before),
        after: numbers_under(forced, c.after),
        mode: mode_under(rules.runs_apart(verdict), c.mode),
    })
}

// The binding with the command's handler and guard, and with the guards that the owner imposes now.
pub(crate) fn replaced(
    alloc: Global,
    rules: &Policy,
    verdict: Verdict,
    c: &Command,
    binding: &Binding,
) -> Result<Binding, NoMemory>
    ensures { IfOk result (λ copy. copy ≡ specs.replaced rules.now verdict c.now binding.now) }
{
    let imposed = copy_numbers(alloc, rules.imposed(verdict))?;
    Ok(Binding {
        number: binding.number,
        requester: binding.requester,
        handler: c.handler,
        own_guard: c.guard,
        imposed,
        place: binding.place,
        before: binding.before,
        after: binding.after,
        mode: binding.mode,
    })
}

// Equal bindings, with room for one more.
fn copy_bindings(alloc: Global, bindings: &[Binding]) -> Result<Bindings, NoMemory>
    ensures { IfOk result (λ copy. copy ≡ bindings.now) }
{
    let mut copy = Sequence::with_capacity(alloc, bindings.len() + 1)?;
    for binding in bindings {
        copy.push(binding.copy()?)?;
    }
    Ok(copy)
}

fn copy_without(alloc: Global, bindings: &[Binding], target: u16) -> Result<Bindings, NoMemory>
    ensures { IfOk result (λ copy. copy ≡ filter (λ b. not (b.number == target)) bindings.now) }
{
    let mut copy = Sequence::with_capacity(alloc, bindings.len())?;
    for binding in bindings {
        if binding.number != target {
            copy.push(binding.copy()?)?;
        }
    }
    Ok(copy)
}

// The binding after a replace: another one where it is the target.
fn replaced_if(
    alloc: Global,
    rules: &Policy,
    verdict: Verdict,
    c: &Command,
    binding: &Binding,
) -> Result<Binding, NoMemory>
    ensures { IfOk result (λ copy. copy ≡ specs.replaced_at rules.now verdict c.now binding.now) }
{
    if binding.number == c.target {
        replaced(alloc, rules, verdict, c, binding)
    } else {
        binding.copy()
    }
}

fn copy_replaced(
    alloc: Global,
    rules: &Policy,
    verdict: Verdict,
    c: &Command,
    bindings: &[Binding],
) -> Result<Bindings, NoMemory>
    ensures { IfOk result
        (λ copy. copy ≡ map (specs.replaced_at rules.now verdict c.now) bindings.now) }
{
    let mut copy = Sequence::with_capacity(alloc, bindings.len())?;
    for binding in bindings {
        copy.push(replaced_if(alloc, rules, verdict, c, binding)?)?;
    }
    Ok(copy)
}

fn copy_and_install(
    alloc: Global,
    rules: &Policy,
    verdict: Verdict,
    number: u16,
    c: &Command,
    bindings: &[Binding],
) -> Result<Bindings, NoMemory>
    ensures { IfOk result (λ copy.
        copy ≡ bindings.now ++ specs.installed rules.now verdict number c.now ∷ []) }
{
    let mut copy = copy_bindings(alloc, bindings)?;
    copy.push(installed(alloc, rules, verdict, number, c)?)?;
    Ok(copy)
}

// The bindings of the command's event after it, in a list of its own. An installed binding has this number.
pub(crate) fn bindings_after(
    alloc: Global,
    rules: &Policy,
    verdict: Verdict,
    number: u16,
    c: &Command,
    bindings: &[Binding],
) -> Result<Bindings, NoMemory>
    ensures { IfOk result (λ after.
        after
        ≡ specs.bindings_after rules.now verdict number c.now c.now.op
        bindings.now) }
{
    match c.op {
        Op::Install => copy_and_install(alloc, rules, verdict, number, c, bindings),
        Op::Remove => copy_without(alloc, bindings, c.target),
        Op::Replace => copy_replaced(alloc, rules, verdict, c, bindings),
        Op::Default | Op::NoDefault => copy_bindings(alloc, bindings),
    }
}
