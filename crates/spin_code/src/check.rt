//! The first fault of a test, an act or a merge.

ghost use Rattle.std.specs.Prelude.{◌≡◌};
ghost use Rattle.std.specs.List.{list_all, list_any};
ghost use Rattle.spin_code.specs.Check.{test_check, merge_check, act_check};
ghost use Rattle.spin_code.specs.Check as specs;

use crate::act::{Act, ActStep};
use crate::depth::{MAX_DEPTH, is_any_step_deep, is_expr_deeper, is_test_deeper};
use crate::merge::Merge;
use crate::nodes::{MAX_NODES, after_expr, after_steps, after_test};
use crate::test::Test;
use crate::uses::{Asked, are_steps_known, are_steps_right, expr_passes, test_passes};
use spin_values::{EventType, Kind, Param};
use thiserror::Error;

/// What is wrong with an act, a test or a merge. A check answers the first of these, in this order, that applies.
#[derive(Clone, Copy, PartialEq, Eq, Debug, Error)]
pub enum ActFault {
    /// An expression or a test is deeper than [`MAX_DEPTH`].
    #[error("there are more than 8 levels")]
    TooDeep,
    /// There are more than [`MAX_NODES`] steps, parts, expressions and tests.
    #[error("there are more than 64 nodes")]
    TooLong,
    /// An argument's number isn't below the number of parameters.
    #[error("there is no argument of that number")]
    BadArg,
    /// A word is wanted and the argument is bytes, or the reverse; a field's width isn't 1, 2, 4 or 8; or the
    /// parameters aren't those that a layer's headers need.
    #[error("an argument is of the wrong kind")]
    BadKind,
    /// A step sets a parameter that may not be changed.
    #[error("a parameter that is set may not be changed")]
    NotVar,
    /// A step gives a result, and the event gives none.
    #[error("the event gives no result")]
    NoResult,
}

// Whether a step sets no parameter but one that may be changed.
fn sets_var(step: &ActStep, params: &[Param]) -> bool
    ensures { result ≡ specs.sets_var params.now step.now }
{
    match step {
        ActStep::Set { arg, .. } => match params.get(*arg as usize) {
            None => false,
            Some(param) => param.var,
        },
        _ => true,
    }
}

// Whether a step gives a result.
fn is_result(step: &ActStep) -> bool
    ensures { result ≡ specs.is_result step.now }
{
    matches!(step, ActStep::Result(_))
}

// Whether the steps set no parameter but those that may be changed.
fn set_only_vars(steps: &[ActStep], params: &[Param]) -> bool
    ensures { result ≡ list_all (specs.sets_var params.now) steps.now }
{
    steps.iter().all(|step| sets_var(step, params))
}

// Whether any of the steps gives a result.
fn is_any_result(steps: &[ActStep]) -> bool
    ensures { result ≡ list_any specs.is_result steps.now }
{
    steps.iter().any(|step| is_result(step))
}

/// The first fault of a test over the parameters of a signature, of [`ActFault::TooDeep`], [`ActFault::TooLong`],
/// [`ActFault::BadArg`] and [`ActFault::BadKind`].
///
/// It goes no deeper into the stack than [`MAX_DEPTH`], however deep the test is.
pub fn check_test(t: &Test, sig: &EventType) -> Result<(), ActFault>
    ensures { result ≡ test_check t.now sig.now }
{
    let params = sig.params.as_slice();
    if is_test_deeper(t, MAX_DEPTH) {
        return Err(ActFault::TooDeep);
    }
    if after_test(t, MAX_NODES).is_none() {
        return Err(ActFault::TooLong);
    }
    if !test_passes(t, params, Asked::Known) {
        return Err(ActFault::BadArg);
    }
    if !test_passes(t, params, Asked::Right) {
        return Err(ActFault::BadKind);
    }
    Ok(())
}

/// The first fault of an act over a signature.
///
/// It goes no deeper into the stack than [`MAX_DEPTH`], however deep the act's expressions are.
pub fn check_act(a: &Act, sig: &EventType) -> Result<(), ActFault>
    ensures { result ≡ act_check a.now sig.now }
{
    let params = sig.params.as_slice();
    let steps = a.steps.as_slice();
    if is_any_step_deep(steps) {
        return Err(ActFault::TooDeep);
    }
    if after_steps(steps, MAX_NODES).is_none() {
        return Err(ActFault::TooLong);
    }
    if !are_steps_known(steps, params) {
        return Err(ActFault::BadArg);
    }
    if !are_steps_right(steps, params) {
        return Err(ActFault::BadKind);
    }
    if !set_only_vars(steps, params) {
        return Err(ActFault::NotVar);
    }
    if sig.gives {
        return Ok(());
    }
    if is_any_result(steps) {
        return Err(ActFault::NoResult);
    }
    Ok(())
}

/// The first fault of a merge, of [`ActFault::TooDeep`], [`ActFault::TooLong`], [`ActFault::BadArg`] and
/// [`ActFault::BadKind`]: a fold's expression is checked over two words, the merge so far and the next result.
///
/// It goes no deeper into the stack than [`MAX_DEPTH`], however deep the expression is.
pub fn check_merge(m: &Merge) -> Result<(), ActFault>
    ensures { result ≡ merge_check m.now }
{
    let Merge::Fold(e) = m else {
        return Ok(());
    };
    let word = Param {
        kind: Kind::Word,
        var: false,
    };
    let params = [word, word];
    if is_expr_deeper(e, MAX_DEPTH) {
        return Err(ActFault::TooDeep);
    }
    if after_expr(e, MAX_NODES).is_none() {
        return Err(ActFault::TooLong);
    }
    if !expr_passes(e, &params, Asked::Known) {
        return Err(ActFault::BadArg);
    }
    if !expr_passes(e, &params, Asked::Right) {
        return Err(ActFault::BadKind);
    }
    Ok(())
}
