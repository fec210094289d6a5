//! Objects that answer for the owner of an event.

ghost use Rattle.std.specs.Prelude.{◌≡◌, List};
ghost use Rattle.spin_policy.specs.declared.rule.Rule.{Rule};
ghost use Rattle.spin_policy.specs.Verdicts.{verdict_of};

use crate::rule::{Request, Verdict};

/// An object that answers requests as a policy does. Its meaning is that policy.
pub trait Authoriser: Drop {
    ghost follows: { Self → List Rule };

    /// The answer of its policy. It takes no memory.
    fn judge(&self, request: &Request) -> Verdict
        ensures { result ≡ verdict_of (follows self.now) request.now };
}
