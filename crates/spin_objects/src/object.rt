//! Handlers and guards that are objects of another's making: what they have to do.

ghost use Rattle.std.specs.Prelude.{◌≡◌, OnOk};
ghost use Rattle.spin_code.specs.declared.act.Act.{Act};
ghost use Rattle.spin_code.specs.declared.test.Test.{Test};
ghost use Rattle.spin_code.specs.Truth.{truth_of};
ghost use Rattle.spin_objects.specs.Doing.{IsDone};

use crate::item::Outcome;
use spin_values::{Args, NoMemory};
use std::alloc::Global;

/// An object that does an act. Its meaning is the act.
pub trait Handler: Drop {
    ghost does: { Self → Act };

    /// Does the act: changes the arguments, and appends what the act gives. After want of memory nothing is known of
    /// the two.
    fn run(&self, alloc: Global, args: &mut Args, out: &mut Outcome) -> Result<(), NoMemory>
        ensures { OnOk result (IsDone (does self.now) args.old out.old args.new out.new) };
}

/// An object that asks a test. Its meaning is the test.
pub trait Guard: Drop {
    ghost asks: { Self → Test };

    /// Whether the test holds of these arguments.
    fn admits(&self, args: &Args) -> bool
        ensures { result ≡ truth_of (asks self.now) args.now };
}
