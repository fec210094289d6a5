//! How many nodes expressions, tests and the steps of acts have.

ghost use Rattle.std.specs.Prelude.{◌≡◌, sum_by};
ghost use Rattle.spin_code.specs.Inner.Room.{left_after};
ghost use Rattle.spin_code.specs.Size.{expr_nodes, test_nodes, part_nodes, step_nodes};

use crate::act::{ActStep, Part};
use crate::expr::Expr;
use crate::test::Test;

/// How many nodes an act, a test or a merge may have: each step, part, expression and test is one, and an
/// expression or test within another counts too.
pub const MAX_NODES: u8 = 64;

// The room for nodes that is left after an expression, if it has room.
#[tactic(auto, using(crate::proofs::Sizes::expr_nodes_positive, std::proofs::lemmas::Bool::Decides::nat_tests))]
pub(crate) fn after_expr(e: &Expr, room: u8) -> Option<u8>
    ensures { result ≡ left_after (expr_nodes e.now) room }
{
    if room == 0 {
        return None;
    }
    match e {
        Expr::Const(_) => Some(room - 1),
        Expr::Arg(_) => Some(room - 1),
        Expr::Field { .. } => Some(room - 1),
        Expr::Plus(a, b) => after_expr(b, after_expr(a, room - 1)?),
        Expr::And(a, b) => after_expr(b, after_expr(a, room - 1)?),
        Expr::Or(a, b) => after_expr(b, after_expr(a, room - 1)?),
    }
}

// The room for nodes that is left after a test, if it has room.
#[tactic(auto, using(crate::proofs::Sizes::test_nodes_positive, std::proofs::lemmas::Bool::Decides::nat_tests))]
pub(crate) fn after_test(t: &Test, room: u8) -> Option<u8>
    ensures { result ≡ left_after (test_nodes t.now) room }
{
    if room == 0 {
        return None;
    }
    match t {
        Test::True => Some(room - 1),
        Test::Compare(_, a, b) => after_expr(b, after_expr(a, room - 1)?),
        Test::HasBytes { .. } => Some(room - 1),
        Test::Not(t) => after_test(t, room - 1),
        Test::All(a, b) => after_test(b, after_test(a, room - 1)?),
        Test::Any(a, b) => after_test(b, after_test(a, room - 1)?),
    }
}

// The room for nodes that is left after a part, if it has room.
fn after_part(part: &Part, room: u8) -> Option<u8>
    ensures { result ≡ left_after (part_nodes part.now) room }
{
    if room == 0 {
        return None;
    }
    match part {
        Part::Word(e) => after_expr(e, room - 1),
        Part::Bytes { .. } => Some(room - 1),
    }
}

// The room for nodes that is left after parts, if they have room.
fn after_parts(parts: &[Part], room: u8) -> Option<u8>
    ensures { result ≡ left_after (sum_by part_nodes parts.now) room }
{
    let mut left = room;
    for part in parts {
        left = after_part(part, left)?;
    }
    Some(left)
}

// The room for nodes that is left after a step, if it has room.
fn after_step(step: &ActStep, room: u8) -> Option<u8>
    ensures { result ≡ left_after (step_nodes step.now) room }
{
    if room == 0 {
        return None;
    }
    match step {
        ActStep::Set { to, .. } => after_expr(to, room - 1),
        ActStep::Send { .. } => Some(room - 1),
        ActStep::Result(e) => after_expr(e, room - 1),
        ActStep::Up { parts, .. } => after_parts(parts, room - 1),
        ActStep::Layer { .. } => Some(room - 1),
    }
}

// The room for nodes that is left after steps, if they have room.
pub(crate) fn after_steps(steps: &[ActStep], room: u8) -> Option<u8>
    ensures { result ≡ left_after (sum_by step_nodes steps.now) room }
{
    let mut left = room;
    for step in steps {
        left = after_step(step, left)?;
    }
    Some(left)
}
