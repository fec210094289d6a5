//! Versions: states that never change, of which a command makes the next.

ghost use Rattle.std.specs.Prelude.{◌≡◌, ◌≤◌, ◌<◌, ◌+◌, ℕ, List, [], map, IsTrue, IfOk, Some};
ghost use Rattle.std.specs.Prelude.{None, MatchResult, length, slice_get, slice_set};
ghost use Rattle.std.specs.Prelude.{IsSomeAnd, Decides};
ghost use Rattle.spin_word.specs.Commands.{is_command, no_number};
ghost use Rattle.spin_place.specs.Precedence.{IsTheOrder, HasLawfulOrder};
ghost use Rattle.spin_values.specs.First.{first_of};
ghost use Rattle.spin_table.specs.Setups.{has_authority};
ghost use Rattle.spin_table.specs.Refusals.{refusals_at};
ghost use Rattle.spin_table.specs.Steps as specs;
ghost use Rattle.spin_table.specs.Steps.{event_after, OnRefused, MayConflict};
ghost use Rattle.spin_table.specs.Orders.{arranged, IsChangeFault};
ghost use Rattle.spin_plan.specs.Planned.{IsOver};
ghost use Rattle.spin_objects.specs.Units.{tests_of};
ghost use Rattle.spin_table.specs.Soundness.{IsSoundEvent, IsSoundVersion};
ghost use Rattle.spin_table.specs.SetupOf.{data_of};
ghost use Rattle.spin_table.specs.declared.setup.TheConstants.{MAX_LIVE};
ghost use Rattle.spin_table.specs.States.{start_of};
ghost use Rattle.spin_table.specs.Setups.{tests_in};
ghost use Rattle.spin_table.specs.Inner.Slots.{IsSlotOver, first_slot};
ghost use Rattle.std.specs.Arc.{arc_value};

use crate::changes::{Bindings, bindings_after};
use crate::event::EventDef;
use crate::guarding::{Tests, share_tests};
use crate::judging::{answer, is_install, refusal, rules};
use crate::lists::EventLists;
use crate::refusal::{Refusal, StepFault};
use crate::setup::Setup;
use spin_code::Sincere;
use spin_objects::Catalogue;
use spin_place::{Binding, is_cycle};
use spin_plan::Plan;
use spin_values::{NoMemory, Sequence, Steps};
use spin_word::{Command, Op};
use std::alloc::Global;
use std::marker::{Brand, Model};
use std::sync::Arc;
use std::sync::ledger::{Blank, Ledger};

// The lists of one event, shared with the versions in which they are the same, and its default.
#[derive(Drop)]
pub(crate) struct EventSlot {
    pub(crate) default: u16,
    pub(crate) lists: Arc<EventLists>,
}

impl Model for EventSlot {
    ghost use Rattle.std.specs.Arc.{arc_value};
    ghost use Rattle.std.specs.Coded.{codes};
    ghost use Rattle.spin_code.specs.contracts.expr.Expr as expr;
    ghost use Rattle.spin_table.specs.Inner.Slots.{Slot};

    ghost Value = { Slot };

    ghost coded = { Prim.hlevel (codes, expr.the_row.coded) };

    ghost view = { λ s. record {
      state = record { bindings = (arc_value s.lists).bindings; default = s.default };
      plan = (arc_value s.lists).plan;
    } };
}

/// The place, and the bindings and the default of each event. Contracts see the state, and the tests of the guards
/// over which the plans of all events were compiled.
#[derive(Drop)]
pub struct Version {
    pub(crate) place: u16,
    pub(crate) events: Sequence<EventSlot>,
    pub(crate) tests: Arc<Tests>,
}

impl Model for Version {
    ghost use Rattle.std.specs.Prelude.{All};
    ghost use Rattle.std.specs.Arc.{arc_value};
    ghost use Rattle.std.specs.Coded.{codes};
    ghost use Rattle.spin_code.specs.contracts.test.Test as test;
    ghost use Rattle.spin_table.specs.States.{VersionValue};
    ghost use Rattle.spin_table.specs.Inner.Slots.{states_of, IsSlotOver};

    ghost Value = { VersionValue };

    ghost coded = { Prim.hlevel (codes, test.the_row.coded) };

    ghost view = { λ v. record {
      state = record { place = v.place; events = states_of v.events };
      tests = arc_value v.tests;
    } };

    ghost invariant = { λ v. All (IsSlotOver (arc_value v.tests)) v.events };
}

// The default after the command.
fn default_after(c: &Command, default: u16) -> u16
    ensures { result ≡ specs.default_after c.now c.now.op default }
{
    match c.op {
        Op::Default => c.handler,
        Op::NoDefault => 0,
        _ => default,
    }
}

impl EventSlot {
    // The bindings after the command, an installed one with the number of the next place.
    fn bindings_after(
        &self,
        alloc: Global,
        setup: &Setup,
        def: &EventDef,
        place: u16,
        c: &Command,
    ) -> Result<Bindings, NoMemory>
        requires room { place + 1 < no_number }
        requires few { length self.now.state.bindings ≤ MAX_LIVE }
        requires there { IsTrue (has_authority (data_of setup.now).policies def.now.authority) }
        requires sincere { ⟦<Catalogue as Sincere>⟧.sincere setup.now.catalogue }
        ensures { IfOk result (λ after.
            after
            ≡ (event_after (data_of setup.now).policies def.now (place + 1) c.now self.now.state).bindings) }
    {
        let bindings = self.lists.bindings();
        let verdict = answer(setup, def, bindings, c);
        bindings_after(alloc, rules(setup, def), verdict, place + 1, c, bindings)
    }

    // The same with lists that are made anew.
    fn rebuilt<L: Ledger>(
        &self,
        alloc: Global,
        setup: &Setup,
        def: &EventDef,
        place: u16,
        c: &Command,
        steps: &mut Steps<L>,
    ) -> Result<EventSlot, StepFault>
        requires sincere { ⟦<Catalogue as Sincere>⟧.sincere setup.now.catalogue }
        requires room { place + 1 < no_number }
        requires event { slice_get (data_of setup.now).events c.now.event ≡ Some def.now }
        requires sound { IsSoundEvent (data_of setup.now) place c.now.event def.now self.now.state }
        requires passed { first_of (refusals_at (data_of setup.now) def.now self.now.state.bindings c.now) ≡ None }
        ensures change { MatchResult result (λ next.
            (next.state
            ≡ event_after (data_of setup.now).policies def.now (place + 1) c.now
            self.now.state) × HasLawfulOrder next.state.bindings)
            (IsChangeFault (data_of setup.now).policies def.now (place + 1) c.now self.now.state) }
        ensures over { IfOk result (IsSlotOver (tests_in (data_of setup.now))) }
        ensures ticks { steps.new
            ≤ steps.old + length
            (event_after (data_of setup.now).policies def.now (place + 1) c.now self.now.state).bindings }
        ensures refused { OnRefused result (steps.new ≡ steps.old) }
    {
        let bindings = self.bindings_after(alloc, setup, def, place, c)?;
        let lists = match EventLists::make(alloc, setup, bindings, steps) {
            Ok(lists) => lists,
            Err(fault) => return Err(fault),
        };
        Ok(EventSlot {
            default: default_after(c, self.default),
            lists: Arc::new(alloc, lists)?,
        })
    }

    // The slot after a command to which no refusal but a conflict applies. An installed binding has the number of
    // the next place.
    fn after<L: Ledger>(
        &self,
        alloc: Global,
        setup: &Setup,
        def: &EventDef,
        place: u16,
        c: &Command,
        steps: &mut Steps<L>,
    ) -> Result<EventSlot, StepFault>
        requires sincere { ⟦<Catalogue as Sincere>⟧.sincere setup.now.catalogue }
        requires room { place + 1 < no_number }
        requires event { slice_get (data_of setup.now).events c.now.event ≡ Some def.now }
        requires sound { IsSoundEvent (data_of setup.now) place c.now.event def.now self.now.state }
        requires over { IsSlotOver (tests_in (data_of setup.now)) self.now }
        requires passed { first_of (refusals_at (data_of setup.now) def.now self.now.state.bindings c.now) ≡ None }
        ensures change { MatchResult result (λ next.
            (next.state
            ≡ event_after (data_of setup.now).policies def.now (place + 1) c.now
            self.now.state) × HasLawfulOrder next.state.bindings)
            (IsChangeFault (data_of setup.now).policies def.now (place + 1) c.now self.now.state) }
        ensures over { IfOk result (IsSlotOver (tests_in (data_of setup.now))) }
        ensures ticks { steps.new
            ≤ steps.old + length
            (event_after (data_of setup.now).policies def.now (place + 1) c.now self.now.state).bindings }
        ensures refused { OnRefused result (steps.new ≡ steps.old) }
    {
        match c.op {
            Op::Default => Ok(self.with_default(c.handler)?),
            Op::NoDefault => Ok(self.with_default(0)?),
            _ => self.rebuilt(alloc, setup, def, place, c, steps),
        }
    }

    // The live bindings.
    pub(crate) fn bindings(&self) -> &[Binding]
        ensures { result.now ≡ self.now.state.bindings }
    {
        self.lists.bindings()
    }

    // One more owner of the lists, with this default.
    pub(crate) fn with_default(&self, default: u16) -> Result<EventSlot, NoMemory>
        ensures { IfOk result (λ slot. slot ≡ record self.now {
          state = record { bindings = self.now.state.bindings; default = default };
        }) }
    {
        Ok(EventSlot {
            default,
            lists: Arc::try_clone(&self.lists)?,
        })
    }
}

// One more owner of the lists of each event.
fn share(alloc: Global, slots: &[EventSlot]) -> Result<Sequence<EventSlot>, NoMemory>
    ensures { IfOk result (λ shared. shared ≡ slots.now) }
{
    let mut shared = Sequence::with_capacity(alloc, slots.len())?;
    for slot in slots {
        shared.push(slot.with_default(slot.default)?)?;
    }
    Ok(shared)
}

// The lists of an event without bindings.
fn empty_lists<L: Ledger>(
    alloc: Global,
    setup: &Setup,
    blank: Blank,
) -> Result<EventLists, NoMemory>
    requires name { blank.name ≡ L.name }
    requires parts { blank.parts ≡ L.parts }
    requires some { 0 < L.parts }
    ensures bindings { IfOk result (λ lists. lists.bindings ≡ []) }
    ensures over { IfOk result (λ lists. IsOver (tests_of setup.now.catalogue) lists.plan) }
{
    let mut steps = Steps::<L>::new(blank);
    match EventLists::make(alloc, setup, Sequence::new(alloc), &mut steps) {
        Ok(lists) => Ok(lists),
        Err(_) => Err(NoMemory),
    }
}

// The slots of the events at the start, which share these empty lists.
fn first_slots(
    alloc: Global,
    events: &[EventDef],
    empty: &Arc<EventLists>,
) -> Result<Sequence<EventSlot>, NoMemory>
    requires { (arc_value empty.now).bindings ≡ [] }
    ensures { IfOk result
        (λ slots. slots ≡ map (first_slot (arc_value empty.now).plan) events.now) }
{
    let mut slots = Sequence::new(alloc);
    for event in events {
        slots.push(EventSlot {
            default: event.first_default,
            lists: Arc::try_clone(empty)?,
        })?;
    }
    Ok(slots)
}

impl Version {
    /// The version at the start: no command was accepted, no binding is live, and each event has its first default.
    pub fn start(alloc: Global, setup: &Setup) -> Result<Version, NoMemory>
        ensures start { IfOk result (λ v. v.state ≡ start_of (data_of setup.now)) }
        ensures sound { IfOk result (λ v. IsSoundVersion (data_of setup.now) v) }
    {
        let tests = Arc::new(alloc, Tests::of(alloc, setup.catalogue())?)?;
        let lists = empty_lists::<Brand>(alloc, setup, Blank::new(1))?;
        let empty = Arc::new(alloc, lists)?;
        let events = first_slots(alloc, setup.event_defs(), &empty)?;
        Ok(Version {
            place: 0,
            events,
            tests,
        })
    }

    /// The number of commands that were accepted since the start; since a renewal, that and the number of bindings that
    /// were live then.
    pub fn place(&self) -> u16
        ensures { result ≡ self.now.state.place }
    {
        self.place
    }

    /// The live bindings of an event that is there, in rising order of number.
    pub fn bindings(&self, event: u8) -> &[Binding]
        requires { event < length self.now.state.events }
        ensures { IsSomeAnd (slice_get self.now.state.events event) (λ e. result.now ≡ e.bindings) }
    {
        self.events.get(event as usize).lists.bindings()
    }

    /// The default of an event that is there, 0 being none.
    pub fn default_of(&self, event: u8) -> u16
        requires { event < length self.now.state.events }
        ensures { IsSomeAnd (slice_get self.now.state.events event) (λ e. result ≡ e.default) }
    {
        self.events.get(event as usize).default
    }

    /// The plan of an event that is there: that of its bindings in the order in which they run, over the guards of the
    /// setup.
    pub fn plan(&self, event: u8) -> &Plan
        requires { event < length self.now.state.events }
        ensures order { IsSomeAnd (slice_get self.now.state.events event) (λ e.
            (ns : List ℕ) → IsTheOrder e.bindings ns
            → result.now.bindings ≡ arranged e.bindings ns) }
        ensures over { IsOver self.now.tests result.now }
    {
        self.events.get(event as usize).lists.plan()
    }
}

impl Version {
    // The next version, in which this slot is the event's.
    fn with_event(&self, alloc: Global, event: u8, slot: EventSlot) -> Result<Version, NoMemory>
        requires there { event < length self.now.state.events }
        requires room { self.now.state.place + 1 < no_number }
        requires over { IsSlotOver self.now.tests slot }
        ensures { IfOk result (λ v. v ≡ record self.now {
          state = record {
            place = self.now.state.place + 1;
            events = slice_set self.now.state.events event slot.state;
          };
        }) }
    {
        let mut events = share(alloc, self.events.as_slice())?;
        events.replace(event as usize, slot);
        Ok(Version {
            place: self.place + 1,
            events,
            tests: share_tests(&self.tests)?,
        })
    }

    /// The version after the command, or why there is none. This one stays as it is.
    ///
    /// A refusal comes exactly where it applies and none before it does, in the order of their numbers, but for the
    /// twelfth, which comes between the ninth and the tenth. An accepted command raises the place by one and changes
    /// one thing beside: an install adds a binding under the new place as its number, a remove takes the target out,
    /// a replace gives it another handler and other guards, and a default or a no-default sets the default.
    ///
    /// The command's event gets lists made anew, unless its default alone changes; those of all other events are
    /// shared. It ticks at most once per live binding that the event has in the new version, not at all where the
    /// command is refused, and at most 64 times where there is no memory. It takes time linear in the event's plan, and
    /// quadratic in its bindings.
    pub fn after<L: Ledger>(
        &self,
        alloc: Global,
        setup: &Setup,
        c: &Command,
        steps: &mut Steps<L>,
    ) -> Result<Version, StepFault>
        requires sincere { ⟦<Catalogue as Sincere>⟧.sincere setup.now.catalogue }
        requires valid { IsTrue (is_command c.now) }
        requires room { self.now.state.place + 1 < no_number }
        requires sound { IsSoundVersion (data_of setup.now) self.now }
        ensures answer { specs.IsAnswer (data_of setup.now) self.now.state c.now result }
        ensures sound { IfOk result (λ v. IsSoundVersion (data_of setup.now) v) }
        ensures ok { IfOk result
            (λ v. steps.new ≤ steps.old + length (specs.bindings_at v.state c.now.event)) }
        ensures refused { OnRefused result (steps.new ≡ steps.old) }
        ensures no_more { steps.new ≤ steps.old + MAX_LIVE }
    {
        if c.event >= setup.events() {
            return Err(StepFault::Refused(Refusal::UnknownEvent));
        }
        let def = setup.event(c.event);
        let slot = self.events.get(c.event as usize);
        match refusal(setup, def, slot.lists.bindings(), c) {
            Some(refusal) => Err(StepFault::Refused(refusal)),
            None => {
                let changed = match slot.after(alloc, setup, def, self.place, c, steps) {
                    Ok(changed) => changed,
                    Err(fault) => return Err(fault),
                };
                Ok(self.with_event(alloc, c.event, changed)?)
            }
        }
    }

    // The same over a count of steps of its own.
    fn counted_after<L: Ledger>(
        &self,
        alloc: Global,
        setup: &Setup,
        c: &Command,
        blank: Blank,
    ) -> Result<Version, StepFault>
        requires name { blank.name ≡ L.name }
        requires parts { blank.parts ≡ L.parts }
        requires some { 0 < L.parts }
        requires sincere { ⟦<Catalogue as Sincere>⟧.sincere setup.now.catalogue }
        requires valid { IsTrue (is_command c.now) }
        requires room { self.now.state.place + 1 < no_number }
        requires sound { IsSoundVersion (data_of setup.now) self.now }
        ensures answer { specs.IsAnswer (data_of setup.now) self.now.state c.now result }
        ensures sound { IfOk result (λ v. IsSoundVersion (data_of setup.now) v) }
    {
        let mut steps = Steps::<L>::new(blank);
        self.after(alloc, setup, c, &mut steps)
    }

    /// The version after the command, as [`Version::after`] makes it, for callers that count no steps.
    pub fn next(&self, alloc: Global, setup: &Setup, c: &Command) -> Result<Version, StepFault>
        requires sincere { ⟦<Catalogue as Sincere>⟧.sincere setup.now.catalogue }
        requires valid { IsTrue (is_command c.now) }
        requires room { self.now.state.place + 1 < no_number }
        requires sound { IsSoundVersion (data_of setup.now) self.now }
        ensures answer { specs.IsAnswer (data_of setup.now) self.now.state c.now result }
        ensures sound { IfOk result (λ v. IsSoundVersion (data_of setup.now) v) }
    {
        self.counted_after::<Brand>(alloc, setup, c, Blank::new(1))
    }

    /// Whether the command may be refused with a conflict of this cycle: no other refusal applies to it, it is an
    /// install, and the numbers are a cycle of the bindings that the event would then have. [`Version::after`] names
    /// one such cycle; this tells of every one. It takes time linear in the numbers beside the event's bindings.
    pub fn may_conflict(
        &self,
        alloc: Global,
        setup: &Setup,
        c: &Command,
        cycle: &[u16],
    ) -> Result<bool, NoMemory>
        requires sincere { ⟦<Catalogue as Sincere>⟧.sincere setup.now.catalogue }
        requires room { self.now.state.place + 1 < no_number }
        requires sound { IsSoundVersion (data_of setup.now) self.now }
        ensures { IfOk result (λ told.
            Decides told (MayConflict (data_of setup.now) self.now.state c.now cycle.now)) }
    {
        if c.event >= setup.events() {
            return Ok(false);
        }
        let def = setup.event(c.event);
        let slot = self.events.get(c.event as usize);
        if let Some(_) = refusal(setup, def, slot.lists.bindings(), c) {
            return Ok(false);
        }
        if !is_install(c.op) {
            return Ok(false);
        }
        let bindings = slot.bindings_after(alloc, setup, def, self.place, c)?;
        Ok(is_cycle(bindings.as_slice(), cycle))
    }
}
