//! What a test requires of an argument, or of a field of one.

ghost use Rattle.std.specs.Prelude.{◌≡◌};
ghost use Rattle.spin_code.specs.Required as specs;
ghost use Rattle.spin_code.specs.Required.{constant_beside, required_by, IsMetWhereItHolds};

use crate::expr::Expr;
use crate::test::{Cmp, Test};

/// Whether both are the same argument, or the same field of one; never true of other expressions.
pub fn is_same_read(d: &Expr, e: &Expr) -> bool
    ensures { result ≡ specs.is_same_read d.now e.now }
{
    match d {
        Expr::Arg(a) => matches!(e, Expr::Arg(b) if a == b),
        Expr::Field { arg, offset, width } => matches!(
            e,
            Expr::Field { arg: b, offset: from, width: size }
                if arg == b && offset == from && width == size
        ),
        _ => false,
    }
}

// The constant that an equation requires for `e`: its right side, where its left side is `e`.
fn constant(left: &Expr, right: &Expr, e: &Expr) -> Option<u64>
    ensures { result ≡ constant_beside left.now right.now e.now }
{
    match right {
        Expr::Const(number) if is_same_read(left, e) => Some(*number),
        _ => None,
    }
}

/// The constant that a test requires for an argument or a field of one: it compares the two for being equal, in
/// either order, or both of its tests have to hold and one of them requires it. Where both do, the left one's counts.
///
/// `None` where it requires none, and for any other expression. It takes time linear in the test's nodes.
pub fn required(t: &Test, e: &Expr) -> Option<u64>
    ensures { result ≡ required_by t.now e.now }
{
    match t {
        Test::Compare(Cmp::Eq, a, b) => constant(a, b, e).or(constant(b, a, e)),
        Test::All(a, b) => match required(a, e) {
            None => required(b, e),
            found => found,
        },
        _ => None,
    }
}

/// A test that requires a constant for an expression, and holds of arguments, finds it as the expression's value.
pub fn requirements_are_met()
    ensures { IsMetWhereItHolds }
{}
