//! How often each binding ran.

ghost use Rattle.std.specs.Prelude.{◌≡◌, ◌++◌, ◌∷◌, [], List};
ghost use Rattle.spin_filter.specs.Counting.{Marked, IsHit};

use crate::tally::one_more;
use spin_proto::Step;

/// How often a binding ran, or the default of an event.
#[derive(Clone, Copy, Debug, PartialEq, Eq)]
pub struct Hit {
    /// The event.
    pub event: u8,
    /// The number of the binding, 0 being the event's default.
    pub number: u16,
    /// How often its handler ran.
    pub runs: u64,
    /// How often its guards let it run, now or as a job.
    pub lets: u64,
}

impl Hit {
    /// A binding of the event, or its default under the number 0, that ran not yet.
    pub fn new(event: u8, number: u16) -> Hit
        ensures hit { IsHit [] result }
        ensures event { result.event ≡ event }
        ensures number { result.number ≡ number }
    {
        Hit {
            event,
            number,
            runs: 0,
            lets: 0,
        }
    }

    /// Counts a step, which may be the first of a job.
    pub fn note(&mut self, step: &Step, is_first: bool)
        ensures hit { (steps : List Marked) → IsHit steps self.old
            → IsHit (steps ++ record { first = is_first; taken = step.now } ∷ []) self.new }
        ensures event { self.new.event ≡ self.old.event }
        ensures number { self.new.number ≡ self.old.number }
    {
        match step {
            Step::Run { event, number } => {
                if *event == self.event && *number == self.number {
                    self.runs = one_more(self.runs);
                    if !is_first {
                        self.lets = one_more(self.lets);
                    }
                }
            }
            Step::Job { event, number } => {
                if *event == self.event && *number == self.number {
                    self.lets = one_more(self.lets);
                }
            }
            _ => {}
        }
    }
}
