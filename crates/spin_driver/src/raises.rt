//! One raise of one event, as a host makes it that has no dispatcher.
//!
//! - `BINDINGS`: the answer to a raise over so many bindings of a handler that gives 5, which is the default too,
//!   and how many items it gave.

ghost use Rattle.std.specs.Prelude.{◌≡◌, ◌<◌, ◌^◌, [], length, IfOk};
ghost use Rattle.std.specs.List.{All};
ghost use Rattle.spin_plan.specs.Planned.{IsOver};
ghost use Rattle.spin_objects.specs.Units.{handlers_of, tests_of};

use crate::fault::Fault;
use crate::told::tell;
use crate::words::Words;
use spin_code::{Act, ActStep, Expr, Merge, Sincere, Steplist};
use spin_objects::{Body, Catalogue, Natives, Outcome};
use spin_place::Binding;
use spin_plan::Plan;
use spin_raise::{Answer, raise};
use spin_values::{
    Args, EventType, Kind, NoMemory, Numbers, Param, Params, Sequence, Steps, Value,
};
use spin_word::{Mode, NO_BINDINGS, Place};
use std::alloc::Global;
use std::marker::Brand;
use std::sync::ledger::{Blank, Ledger};

pub(crate) fn answer(alloc: Global, words: &mut Words, out: &mut String) -> Result<(), Fault> {
    let count = words.u16()?;
    let catalogue = five(alloc, Natives::new(alloc))?;
    if catalogue.handlers() == 0 {
        return Err(Fault::Wrong("a handler isn't added"));
    }
    let (answer, items) = raised_over(alloc, &catalogue, count)?;
    tell(out, &answer)?;
    tell(out, &items)
}

// The type of an event or a handler of a word that gives a word.
fn word_to_word(alloc: Global) -> Result<EventType, NoMemory> {
    let (kind, var) = (Kind::Word, false);
    let mut params = Params::new(alloc);
    params.push(Param { kind, var })?;
    Ok(EventType {
        params,
        gives: true,
    })
}

// One handler, which gives 5.
fn five(alloc: Global, natives: Natives) -> Result<Catalogue, Fault>
    requires { ⟦<Natives as Sincere>⟧.sincere natives }
    ensures { IfOk result (λ catalogue. ⟦<Catalogue as Sincere>⟧.sincere catalogue) }
{
    let mut steps = Steplist::new(alloc);
    steps.push(ActStep::Result(Expr::Const(5)))?;
    let mut catalogue = Catalogue::new(alloc, natives);
    catalogue
        .add_handler(Body::Coded(word_to_word(alloc)?, Act { steps }))
        .or(Err(Fault::BadRow))?;
    Ok(catalogue)
}

// The binding of handler 1 under this number, without a guard.
fn binding(alloc: Global, number: u16) -> Binding
    ensures handler { result.handler ≡ 1 }
    ensures guards { (result.own_guard ≡ 0) × (result.imposed ≡ []) }
{
    Binding {
        number,
        requester: 0,
        handler: 1,
        own_guard: 0,
        imposed: Numbers::new(alloc),
        place: Place::Free,
        before: NO_BINDINGS,
        after: NO_BINDINGS,
        mode: Mode::Plain,
    }
}

// So many such bindings.
fn bindings_of(alloc: Global, count: u16) -> Result<Sequence<Binding>, NoMemory>
    ensures bare { IfOk result (All (λ b. (b.handler ≡ 1) × (b.own_guard ≡ 0) × (b.imposed ≡ []))) }
    ensures len { IfOk result (λ bindings. length bindings ≡ count) }
{
    let mut bindings = Sequence::new(alloc);
    for before in 0..count {
        bindings.push(binding(alloc, before + 1))?;
    }
    Ok(bindings)
}

// The plan of such bindings.
fn plan_of<L: Ledger>(
    alloc: Global,
    cat: &Catalogue,
    bindings: &[Binding],
    blank: Blank,
) -> Result<Plan, NoMemory>
    requires name { blank.name ≡ L.name }
    requires parts { blank.parts ≡ L.parts }
    requires some { 0 < L.parts }
    requires few { length bindings.now < 2 ^ 32 }
    requires bare { All (λ b. (b.handler ≡ 1) × (b.own_guard ≡ 0) × (b.imposed ≡ [])) bindings.now }
    ensures bindings { IfOk result (λ plan. plan.bindings ≡ bindings.now) }
    ensures over { IfOk result (λ plan. IsOver (tests_of cat.now) plan) }
{
    let mut steps = Steps::<L>::new(blank);
    let plan = Plan::compile(alloc, bindings, cat, &mut steps)?;
    Ok(plan)
}

// The answer to a raise of an event with these bindings, whose default is handler 1, and how many items it gave.
fn raised(alloc: Global, cat: &Catalogue, bindings: &[Binding]) -> Result<(Answer, usize), NoMemory>
    requires sincere { ⟦<Catalogue as Sincere>⟧.sincere cat.now }
    requires there { 0 < length (handlers_of cat.now) }
    requires few { length bindings.now < 2 ^ 32 }
    requires bare { All (λ b. (b.handler ≡ 1) × (b.own_guard ≡ 0) × (b.imposed ≡ [])) bindings.now }
{
    let plan = plan_of::<Brand>(alloc, cat, bindings, Blank::new(1))?;
    let mut args = Args::new(alloc);
    args.push(Value::Word(9))?;
    let mut out = Outcome::new(alloc);
    let answer = raise(
        alloc,
        &plan,
        &Merge::Last,
        1,
        cat,
        false,
        &mut args,
        &mut out,
    )?;
    Ok((answer, out.len()))
}

// The same for so many bindings.
fn raised_over(alloc: Global, cat: &Catalogue, count: u16) -> Result<(Answer, usize), NoMemory>
    requires sincere { ⟦<Catalogue as Sincere>⟧.sincere cat.now }
    requires there { 0 < length (handlers_of cat.now) }
{
    let bindings = bindings_of(alloc, count)?;
    raised(alloc, cat, bindings.as_slice())
}
