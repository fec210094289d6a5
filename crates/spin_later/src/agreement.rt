//! What the parties of a queue agree on.

use std::marker::Brand;

/// What is so of each task of a queue: [`Party::put`](crate::Party::put) asks it of the task, and
/// [`Party::take`](crate::Party::take) and [`Queue::close`](crate::Queue::close) give it. No code runs for it.
///
/// A host whose tasks fit a setup that is known only as it runs makes its queue in a function over `A: Agreement`. It
/// calls that function with `Brand` for `A`, and its proof picks what `allows` is there.
pub trait Agreement {
    ghost use Rattle.spin_later.specs.declared.task.Task.{Task};

    ghost allows: { Task → Type 0 };
}

/// Every task is allowed: for a host that looks up what a task is to do under its sender and number.
pub struct AnyTask;

impl Agreement for AnyTask {
    ghost use Rattle.std.specs.Prelude.{⊤};

    ghost allows = { λ task. ⊤ };
}

impl Agreement for Brand {
    ghost use Rattle.std.specs.Prelude.{⊤};

    ghost allows = { λ task. ⊤ };
}
