//! What a command comes to.

ghost use Rattle.spin_table.specs.Laws.{StepsAreOne};
ghost use Rattle.spin_table.specs.Renamings.{StepsAreRenamed};
ghost use Rattle.spin_table.specs.Renewals.{NamesStayGiven, RenewalsAreRenamings, RenewalsAreSound};

/// The law of steps: a command at a state has one outcome. Whoever knows that it was accepted there knows that it was
/// accepted at every other dispatcher in that state, and which state came of it; and of a refusal all but the cycle
/// that a conflict tells. It does nothing.
pub fn steps_are_one()
    ensures { StepsAreOne }
{}

/// The law of renamings: where two states differ in the numbers of their bindings alone, and the numbers keep their
/// order, each command comes to the same at both, under the numbers of each. It does nothing.
pub fn renamed_steps_are_alike()
    ensures { StepsAreRenamed }
{}

/// The laws of renewal. Of every state to which commands lead from the start, constraints name numbers that were given.
/// The renewed state is sound, and the state before is that one under the numbers before, which keep their order: so
/// by [`renamed_steps_are_alike`] each command comes to the same at both. It does nothing.
pub fn renewals_keep_meaning()
    ensures given { NamesStayGiven }
    ensures renaming { RenewalsAreRenamings }
    ensures sound { RenewalsAreSound }
{}
