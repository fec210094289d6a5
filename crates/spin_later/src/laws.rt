//! Laws of queues, and names that only proofs use: [`HistoryRule`] is the fact of a queue that holds between any two
//! steps, over what each pass knows of it, a [`Known`] with the [`Hand`] of each party.

ghost use Rattle.spin_later.specs.Laws.{TakenOrLeftOnce, TasksAreAsSent};

pub use crate::known::{Hand, Known};
pub use crate::limits::limits_are_stated;
pub use crate::rule::HistoryRule;

/// Each task that a party sent was taken once, by one party, or is left once, as [`Queue::close`](crate::Queue::close)
/// gives what is left.
pub fn tasks_are_taken_once()
    ensures { TakenOrLeftOnce }
{}

/// Each task that a party took, and each that is left, is the one that its sender sent under its number, version and
/// call included.
pub fn tasks_are_as_sent()
    ensures { TasksAreAsSent }
{}
