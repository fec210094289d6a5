//! The rule of a queue, and its kinds of step.
//!
//! Each step is made by one pass and changes its view alone. What the rule says stands in `specs/Rule.antt`, over the
//! history of `specs/History.antt`.

use crate::agreement::Agreement;
use crate::known::Known;
use crate::task::Task;
use crossbeam_queue::protocol::{Join, Lesson, Outcome, Protocol, Split};
use std::marker::PhantomData;

/// There is one history of the queue, of which each party knows its own part, and each task in it is as agreed.
pub struct HistoryRule<A> {
    agreement: PhantomData<A>,
}

impl<A: Agreement> Protocol<Task, Known> for HistoryRule<A> {
    ghost use Rattle.spin_later.specs.Rule.{Kept, first};

    ghost holds = { Kept A.allows };

    ghost first = { first };
}

// A put. Where the queue was full, some history has what the party did.
pub(crate) struct Puts;

impl Outcome<Task, Known> for Puts {
    ghost use Rattle.std.specs.Prelude.{◌≡◌};
    ghost use Rattle.spin_later.specs.Rule.{put_by};

    ghost then = { λ v x w. w ≡ put_by v x };
}

impl Lesson<Task, Known> for Puts {
    ghost use Rattle.spin_later.specs.Rule.{Learned};

    ghost fact = { Learned };
}

// A take. Where the queue was empty, some history has what the party did.
pub(crate) struct Takes<A> {
    agreement: PhantomData<A>,
}

impl<A: Agreement> Outcome<Task, Known> for Takes<A> {
    ghost use Rattle.std.specs.Prelude.{◌≡◌};
    ghost use Rattle.spin_later.specs.Rule.{taken_into, Comes};

    ghost then = { λ v x w. (w ≡ taken_into v x) × Comes v x × A.allows x };
}

impl<A: Agreement> Lesson<Task, Known> for Takes<A> {
    ghost use Rattle.spin_later.specs.Rule.{Learned};

    ghost fact = { Learned };
}

// A take when all parties have ended.
pub(crate) struct Clears<A> {
    agreement: PhantomData<A>,
}

impl<A: Agreement> Outcome<Task, Known> for Clears<A> {
    ghost use Rattle.std.specs.Prelude.{◌≡◌};
    ghost use Rattle.spin_later.specs.Rule.{left_over};

    ghost then = { λ v x w. (w ≡ left_over v x) × A.allows x };
}

impl<A: Agreement> Lesson<Task, Known> for Clears<A> {
    ghost use Rattle.spin_later.specs.Rule.{Learned};

    ghost fact = { Learned };
}

// A party more, before any party is split off.
pub(crate) struct Grows;

impl Split<Known> for Grows {
    ghost use Rattle.spin_later.specs.Rule.{with_one_more, spent};

    ghost left = { with_one_more };

    ghost right = { λ _. spent };
}

// The first party of a pass gets a pass of its own.
pub(crate) struct Parts;

impl Split<Known> for Parts {
    ghost use Rattle.spin_later.specs.Rule.{without_first, first_alone};

    ghost left = { without_first };

    ghost right = { first_alone };
}

// The parties of another pass are joined to those of a pass.
pub(crate) struct Gathers;

impl Join<Known> for Gathers {
    ghost use Rattle.spin_later.specs.Rule.{together, spent};

    ghost both = { together };

    ghost spent = { spent };
}
