//! The limits, in numbers.

ghost use Rattle.spin_run.specs.Limits.{AreStated};

/// The limits of a run have the values that the documents give them.
pub fn limits_are_stated()
    ensures { AreStated }
{}
