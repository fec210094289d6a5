//! Setups: what never changes while commands come.

ghost use Rattle.std.specs.Prelude.{◌≡◌, ◌<◌, ◌≤◌, length, slice_get, Some, Err, IfOk, IsOk};
ghost use Rattle.std.specs.Prelude.{MatchOption};
ghost use Rattle.spin_table.specs.Catalogues.{data_from};
ghost use Rattle.spin_table.specs.Faults as specs;
ghost use Rattle.spin_table.specs.Faults.{IsSoundSetup};
ghost use Rattle.spin_table.specs.declared.setup.TheConstants.{MAX_LIVE};
ghost use Rattle.spin_word.specs.declared.command.TheConstants.{MAX_EVENTS};

use crate::build::setup_fault;
use crate::event::{EventDef, EventList};
use crate::fault::SetupFault;
use spin_code::Sincere;
use spin_objects::Catalogue;

/// The greatest number of modules.
pub const MAX_MODULES: u16 = 256;

/// The greatest number of live bindings that a setup may allow an event.
pub const MAX_LIVE: u16 = 64;

/// Modules, events, handlers and guards. Contracts see it as plain data, which is sound.
#[derive(Drop)]
pub struct Setup {
    modules: u16,
    live: u16,
    events: EventList,
    catalogue: Catalogue,
    ghost sound: { IsSoundSetup (data_from modules live events catalogue) },
    ghost few_events: { length events ≤ MAX_EVENTS },
    ghost few_live: { live ≤ MAX_LIVE },
}

impl Setup {
    ghost use Rattle.spin_table.specs.SetupOf.{data_of};

    /// The setup with these parts, where none of the faults applies. It takes no memory.
    ///
    /// The first fault that applies is answered, in the order in which [`SetupFault`] has them, each with the least
    /// event or handler that has it.
    pub fn build(
        modules: u16,
        live: u16,
        events: EventList,
        catalogue: Catalogue,
    ) -> Result<Setup, SetupFault>
        requires sincere { ⟦<Catalogue as Sincere>⟧.sincere catalogue }
        ensures fault { MatchOption (specs.setup_fault (data_from modules live events catalogue))
            (IsOk result) (λ fault. result ≡ Err fault) }
        ensures setup { IfOk result (λ setup. data_of setup ≡ data_from modules live events catalogue) }
        ensures catalogue { IfOk result (λ setup. setup.catalogue ≡ catalogue) }
        ensures sincere { IfOk result (λ setup. ⟦<Catalogue as Sincere>⟧.sincere setup.catalogue) }
    {
        match setup_fault(modules, live, events.as_slice(), &catalogue) {
            Some(fault) => Err(fault),
            None => Ok(Setup {
                modules,
                live,
                events,
                catalogue,
            }),
        }
    }

    /// The number of modules.
    pub fn modules(&self) -> u16
        ensures { result ≡ (data_of self.now).modules }
    {
        self.modules
    }

    /// The greatest number of live bindings of an event.
    pub fn live(&self) -> u16
        ensures value { result ≡ (data_of self.now).live }
        ensures few { result ≤ MAX_LIVE }
    {
        self.live
    }

    /// The number of events.
    pub fn events(&self) -> u8
        ensures value { result ≡ length (data_of self.now).events }
        ensures few { result ≤ MAX_EVENTS }
    {
        self.events.len() as u8
    }

    // All events in order.
    pub(crate) fn event_defs(&self) -> &[EventDef]
        ensures { result.now ≡ (data_of self.now).events }
    {
        self.events.as_slice()
    }

    /// The event of a number that is there, counted from 0.
    pub fn event(&self, event: u8) -> &EventDef
        requires { event < length (data_of self.now).events }
        ensures { slice_get (data_of self.now).events event ≡ Some result.now }
    {
        self.events.get(event as usize)
    }

    /// The handlers and guards.
    pub fn catalogue(&self) -> &Catalogue
        ensures { result.now ≡ self.now.catalogue }
    {
        &self.catalogue
    }
}
