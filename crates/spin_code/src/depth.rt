//! How deep expressions, tests and the steps of acts are.

ghost use Rattle.std.specs.Prelude.{◌≡◌, nat_lt};
ghost use Rattle.std.specs.List.{list_any};
ghost use Rattle.spin_code.specs.Size.{expr_depth, test_depth};
ghost use Rattle.spin_code.specs.Size as specs;

use crate::act::{ActStep, Part};
use crate::expr::Expr;
use crate::test::Test;

/// How deep an expression or a test may be: a leaf is 1 deep, and each other node is one deeper than the deepest of
/// its parts.
pub const MAX_DEPTH: u8 = 8;

// Whether an expression is deeper than the limit. It goes no deeper into the stack than the limit.
#[tactic(auto, using(crate::proofs::Sizes::expr_depth_positive, std::proofs::lemmas::Bool::Decides::nat_tests))]
pub(crate) fn is_expr_deeper(e: &Expr, limit: u8) -> bool
    ensures { result ≡ nat_lt limit (expr_depth e.now) }
{
    if limit == 0 {
        return true;
    }
    match e {
        Expr::Const(_) => false,
        Expr::Arg(_) => false,
        Expr::Field { .. } => false,
        Expr::Plus(a, b) => is_expr_deeper(a, limit - 1) || is_expr_deeper(b, limit - 1),
        Expr::And(a, b) => is_expr_deeper(a, limit - 1) || is_expr_deeper(b, limit - 1),
        Expr::Or(a, b) => is_expr_deeper(a, limit - 1) || is_expr_deeper(b, limit - 1),
    }
}

// Whether a test is deeper than the limit. It goes no deeper into the stack than the limit.
#[tactic(auto, using(crate::proofs::Sizes::test_depth_positive, std::proofs::lemmas::Bool::Decides::nat_tests))]
pub(crate) fn is_test_deeper(t: &Test, limit: u8) -> bool
    ensures { result ≡ nat_lt limit (test_depth t.now) }
{
    if limit == 0 {
        return true;
    }
    match t {
        Test::True => false,
        Test::Compare(_, a, b) => is_expr_deeper(a, limit - 1) || is_expr_deeper(b, limit - 1),
        Test::HasBytes { .. } => false,
        Test::Not(t) => is_test_deeper(t, limit - 1),
        Test::All(a, b) => is_test_deeper(a, limit - 1) || is_test_deeper(b, limit - 1),
        Test::Any(a, b) => is_test_deeper(a, limit - 1) || is_test_deeper(b, limit - 1),
    }
}

// Whether an expression of a part is too deep.
fn is_part_deep(part: &Part) -> bool
    ensures { result ≡ specs.is_part_deep part.now }
{
    match part {
        Part::Word(e) => is_expr_deeper(e, MAX_DEPTH),
        Part::Bytes { .. } => false,
    }
}

// Whether an expression of any of the parts is too deep.
fn is_any_deep(parts: &[Part]) -> bool
    ensures { result ≡ list_any specs.is_part_deep parts.now }
{
    parts.iter().any(|part| is_part_deep(part))
}

// Whether an expression of a step is too deep.
fn is_step_deep(step: &ActStep) -> bool
    ensures { result ≡ specs.is_step_deep step.now }
{
    match step {
        ActStep::Set { to, .. } => is_expr_deeper(to, MAX_DEPTH),
        ActStep::Send { .. } => false,
        ActStep::Result(e) => is_expr_deeper(e, MAX_DEPTH),
        ActStep::Up { parts, .. } => is_any_deep(parts),
        ActStep::Layer { .. } => false,
    }
}

// Whether an expression of any of the steps is too deep.
pub(crate) fn is_any_step_deep(steps: &[ActStep]) -> bool
    ensures { result ≡ list_any specs.is_step_deep steps.now }
{
    steps.iter().any(|step| is_step_deep(step))
}
