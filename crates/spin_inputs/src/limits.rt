//! The limits, in numbers.

ghost use Rattle.spin_inputs.specs.Limits.{AreStated};

/// The limits that the definitions cite have the values that the documents give them.
pub fn limits_are_stated()
    ensures { AreStated }
{}
