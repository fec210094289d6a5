//! The live bindings of one event, and the plan by which they run.

ghost use Rattle.std.specs.Prelude.{◌≡◌, ◌≤◌, ◌+◌, ◌++◌, ℕ, List, All, IfOk, OnOk};
ghost use Rattle.std.specs.Prelude.{MatchResult, length};
ghost use Rattle.std.specs.Option.{option_copied, option_to_list};
ghost use Rattle.spin_place.specs.Orders.{AreDistinct};
ghost use Rattle.spin_place.specs.Precedence.{numbers_of, IsTheOrder, HasLawfulOrder};
ghost use Rattle.spin_plan.specs.Next.{IsGuard};
ghost use Rattle.spin_plan.specs.Planned.{IsOver};
ghost use Rattle.spin_objects.specs.Units.{guards_of, tests_of};
ghost use Rattle.spin_table.specs.Orders.{arranged, IsOrderFault};
ghost use Rattle.spin_table.specs.Steps.{OnRefused};
ghost use Rattle.spin_table.specs.declared.setup.TheConstants.{MAX_LIVE};

use crate::changes::Bindings;
use crate::live::find_binding;
use crate::refusal::{Refusal, StepFault};
use crate::setup::Setup;
use spin_place::{Binding, OrderFault, are_unplaced, order};
use spin_plan::Plan;
use spin_values::{NoMemory, Numbers, Sequence, Steps};
use std::alloc::Global;
use std::marker::Model;
use std::sync::ledger::Ledger;

// The live bindings of one event in rising order of number, and their plan.
#[derive(Drop)]
pub(crate) struct EventLists {
    bindings: Bindings,
    plan: Plan,
}

impl Model for EventLists {
    ghost use Rattle.std.specs.Prelude.{List, ℕ, ◌≡◌};
    ghost use Rattle.std.specs.Coded.{codes};
    ghost use Rattle.spin_code.specs.contracts.expr.Expr as expr;
    ghost use Rattle.spin_place.specs.Precedence.{IsTheOrder};
    ghost use Rattle.spin_table.specs.Orders.{arranged};
    ghost use Rattle.spin_table.specs.Inner.Slots.{Listed};

    ghost Value = { Listed };

    ghost coded = { Prim.hlevel (codes, expr.the_row.coded) };

    ghost view = { λ l. record { bindings = l.bindings; plan = l.plan } };

    ghost invariant = { λ l.
        (ns : List ℕ) → IsTheOrder l.bindings ns → l.plan.bindings ≡ arranged l.bindings ns };
}

// Adds the binding, if there is one.
fn push_found(list: &mut Bindings, found: Option<&Binding>) -> Result<(), NoMemory>
    ensures { OnOk result (list.new ≡ list.old ++ option_to_list (option_copied found.entry)) }
{
    match found {
        None => Ok(()),
        Some(binding) => list.push(binding.copy()?),
    }
}

// The bindings of these numbers, in the order of the numbers.
fn arrange(alloc: Global, bindings: &[Binding], numbers: &[u16]) -> Result<Bindings, NoMemory>
    ensures { IfOk result (λ list. list ≡ arranged bindings.now numbers.now) }
{
    let mut list = Sequence::with_capacity(alloc, numbers.len())?;
    for number in numbers {
        push_found(&mut list, find_binding(bindings, *number))?;
    }
    Ok(list)
}

// The order of the bindings, or a cycle where none is lawful.
fn order_of(alloc: Global, bindings: &[Binding]) -> Result<Numbers, StepFault>
    requires { AreDistinct (numbers_of bindings.now) }
    ensures { MatchResult result (λ ns. IsTheOrder bindings.now ns) (IsOrderFault bindings.now) }
{
    match order(alloc, bindings) {
        Ok(numbers) => Ok(numbers),
        Err(OrderFault::Conflict(cycle)) => Err(StepFault::Refused(Refusal::Conflict(cycle))),
        Err(OrderFault::NoMemory) => Err(StepFault::NoMemory),
    }
}

// The plan of the bindings as they stand.
fn compiled<L: Ledger>(
    alloc: Global,
    setup: &Setup,
    ordered: &[Binding],
    steps: &mut Steps<L>,
) -> Result<Plan, NoMemory>
    requires few { length ordered.now ≤ MAX_LIVE }
    requires own { All (λ b. IsGuard (length (guards_of setup.now.catalogue)) b.own_guard)
        ordered.now }
    requires imposed { All (λ b. All (IsGuard (length (guards_of setup.now.catalogue))) b.imposed)
        ordered.now }
    ensures plan { IfOk result (λ plan. plan.bindings ≡ ordered.now) }
    ensures over { IfOk result (λ plan. IsOver (tests_of setup.now.catalogue) plan) }
    ensures ticks { steps.new ≤ steps.old + length ordered.now }
{
    Plan::compile(alloc, ordered, setup.catalogue(), steps)
}

// The plan of the bindings in their order, or a cycle where no order of them is lawful.
fn plan_of<L: Ledger>(
    alloc: Global,
    setup: &Setup,
    bindings: &[Binding],
    steps: &mut Steps<L>,
) -> Result<Plan, StepFault>
    requires distinct { AreDistinct (numbers_of bindings.now) }
    requires few { length bindings.now ≤ MAX_LIVE }
    requires own { All (λ b. IsGuard (length (guards_of setup.now.catalogue)) b.own_guard)
        bindings.now }
    requires imposed { All (λ b. All (IsGuard (length (guards_of setup.now.catalogue))) b.imposed)
        bindings.now }
    ensures order { MatchResult result
        (λ plan. (ns : List ℕ) × IsTheOrder bindings.now ns
        × (plan.bindings ≡ arranged bindings.now ns))
        (IsOrderFault bindings.now) }
    ensures over { IfOk result (λ plan. IsOver (tests_of setup.now.catalogue) plan) }
    ensures ticks { steps.new ≤ steps.old + length bindings.now }
    ensures refused { OnRefused result (steps.new ≡ steps.old) }
{
    if are_unplaced(bindings) {
        return Ok(compiled(alloc, setup, bindings, steps)?);
    }
    let numbers = match order_of(alloc, bindings) {
        Ok(numbers) => numbers,
        Err(fault) => return Err(fault),
    };
    let list = arrange(alloc, bindings, numbers.as_slice())?;
    Ok(compiled(alloc, setup, list.as_slice(), steps)?)
}

impl EventLists {
    // The lists of these bindings, or a cycle where no order of them is lawful. It ticks at most once per binding,
    // and not at all where there is a cycle.
    pub(crate) fn make<L: Ledger>(
        alloc: Global,
        setup: &Setup,
        bindings: Bindings,
        steps: &mut Steps<L>,
    ) -> Result<EventLists, StepFault>
        requires distinct { AreDistinct (numbers_of bindings) }
        requires few { length bindings ≤ MAX_LIVE }
        requires own { All (λ b. IsGuard (length (guards_of setup.now.catalogue)) b.own_guard) bindings }
        requires imposed { All (λ b. All (IsGuard (length (guards_of setup.now.catalogue))) b.imposed)
            bindings }
        ensures made { MatchResult result
            (λ made. (made.bindings ≡ bindings) × HasLawfulOrder bindings)
            (IsOrderFault bindings) }
        ensures over { IfOk result (λ made. IsOver (tests_of setup.now.catalogue) made.plan) }
        ensures ticks { steps.new ≤ steps.old + length bindings }
        ensures refused { OnRefused result (steps.new ≡ steps.old) }
    {
        let plan = match plan_of(alloc, setup, bindings.as_slice(), steps) {
            Ok(plan) => plan,
            Err(fault) => return Err(fault),
        };
        Ok(EventLists { bindings, plan })
    }

    pub(crate) fn bindings(&self) -> &[Binding]
        ensures { result.now ≡ self.now.bindings }
    {
        self.bindings.as_slice()
    }

    pub(crate) fn plan(&self) -> &Plan
        ensures order { (ns : List ℕ) → IsTheOrder self.now.bindings ns
            → result.now.bindings ≡ arranged self.now.bindings ns }
        ensures value { result.now ≡ self.now.plan }
    {
        &self.plan
    }
}
