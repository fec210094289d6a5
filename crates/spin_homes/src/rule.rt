//! The rule of a table of homes, and its kinds of step.

use atomic_table::{Play, TableRule};
use std::marker::PhantomData;

/// When a value may be at home at an index, in homes with that key. No code runs for it.
pub trait Fit<T, K> {
    ghost use Rattle.std.specs.Prelude.{ℕ};

    ghost fits: { K → ℕ → T → Type 0 };
}

/// Where the word of a home is 1, nobody has its ticket, and what is there fits the key.
pub struct HomesRule<M> {
    fit: PhantomData<M>,
}

impl<T, K, M: Fit<T, K>> TableRule<Option<T>, K, K> for HomesRule<M> {
    ghost use Rattle.spin_homes.specs.Rule.{IsHomed};

    ghost holds = { IsHomed M.fits };

    ghost first = { λ key. key };
}

// A swap of 0 for the word of a home, by a new seat of the table.
pub(crate) struct Takes<M> {
    fit: PhantomData<M>,
}

impl<T, K, M: Fit<T, K>> Play<Option<T>, K> for Takes<M> {
    ghost use Rattle.spin_homes.specs.Rule.{IsTaken};

    ghost then = { IsTaken M.fits };
}

// A store of 1 into the word of the home that is out with the seat.
pub(crate) struct Gives;

impl<T, K> Play<Option<T>, K> for Gives {
    ghost use Rattle.std.specs.Prelude.{⊤};

    ghost then = { λ _ _ _ _. ⊤ };
}
