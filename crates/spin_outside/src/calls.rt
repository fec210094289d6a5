//! Calls that are counted, and of which those of listed numbers fail.

ghost use Rattle.std.specs.Prelude.{◌≡◌, OnOk, OnErr};
ghost use Rattle.spin_outside.specs.Calls.{CallsState, no_call, with_failing, next_fails, counted};

use spin_values::NoMemory;
use std::alloc::Global;
use std::marker::Model;

/// Counts the calls of an object in memory from 0, and knows the numbers of those that are to fail.
#[derive(Debug, Drop)]
pub struct FailingCalls {
    listed: Vec<u32>,
    made: u64,
}

impl Model for FailingCalls {
    ghost Value = { CallsState };

    ghost view = { λ c. record { listed = c.listed.items; made = c.made } };
}

impl FailingCalls {
    /// No call was made, and none is listed.
    pub fn new(alloc: Global) -> Self
        ensures { result ≡ no_call }
    {
        FailingCalls {
            listed: Vec::new(alloc),
            made: 0,
        }
    }

    /// Lists the call of that number. After want of memory nothing is changed.
    pub fn fail_at(&mut self, call: u32) -> Result<(), NoMemory>
        ensures ok { OnOk result (self.new ≡ with_failing self.old call) }
        ensures err { OnErr result (self.new ≡ self.old) }
    {
        self.listed.push(call)?;
        Ok(())
    }

    /// Counts a call, and answers whether its number is listed. It takes no memory.
    pub fn count(&mut self) -> bool
        ensures fails { result ≡ next_fails self.old }
        ensures counted { self.new ≡ counted self.old }
    {
        let made = self.made;
        self.made = made.saturating_add(1);
        self.listed.iter().any(|number| u64::from(*number) == made)
    }
}
