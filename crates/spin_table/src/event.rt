//! Events as a setup declares them.

use spin_code::Merge;
use spin_policy::Policy;
use spin_values::{EventType, Sequence};

/// Who answers for the owner of an event.
#[derive(Drop, Debug)]
pub enum Authority {
    /// Rules, of which the first that matches decides.
    Rules(Policy),
    /// The native authoriser of this index, which answers by the policy that it was handed in with.
    Native(u16),
}

/// An event of a setup.
#[derive(Drop, Debug)]
pub struct EventDef {
    /// What its handlers take and give.
    pub sig: EventType,
    /// The module that owns it.
    pub owner: u8,
    /// How the results of its handlers become one.
    pub merge: Merge,
    /// The handler that runs at first where no binding does, 0 being none.
    pub first_default: u16,
    /// Who answers requests of other modules.
    pub authority: Authority,
}

/// Events in order, numbered from 0.
pub type EventList = Sequence<EventDef>;
