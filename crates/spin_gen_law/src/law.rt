//! What all runs of a script that is made from a number have in common.

ghost use Rattle.spin_gen_law.specs.Laws.{CountsAreOne, SummariesAreOne};

/// The law of equal counts. Any two legal histories of the script that [`generate`](spin_gen::generate) makes from a
/// number have the same counts, where the natives and the capture are the same. So any two runs of what is made from
/// the number write the same summary where they come to their end. For each lane works on an event of its own, and how
/// many handlers a raise of such an event runs doesn't hang on the order of its bindings. It does nothing.
pub fn counts_are_one()
    ensures histories { CountsAreOne }
    ensures summaries { SummariesAreOne }
{}
