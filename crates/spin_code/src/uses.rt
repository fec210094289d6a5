//! Whether the arguments that are read or set are there, and have the kinds that are wanted.

ghost use Rattle.std.specs.Prelude.{◌≡◌, slice_get};
ghost use Rattle.std.specs.List.{list_all};
ghost use Rattle.spin_code.specs.Value.{is_width};
ghost use Rattle.spin_code.specs.Uses.{AsWord, AsBytes, AsField, is_of_kind};
ghost use Rattle.spin_code.specs.Uses.{expr_uses, test_uses, part_uses, step_uses};
ghost use Rattle.spin_code.specs.Uses as specs;
ghost use Rattle.spin_code.specs.Inner.Asked.{passes};

use crate::act::{ActStep, Layer, Part};
use crate::expr::Expr;
use crate::test::Test;
use spin_values::{Kind, Param};

// What is asked of each argument that is used.
#[derive(Clone, Copy, Debug)]
pub(crate) enum Asked {
    // Whether there is a parameter of its number.
    Known,
    // Whether that has the kind that is wanted, and a field's width is a listed one.
    Right,
}

// Whether the parameter is there and has this kind.
#[tactic(auto, using(crate::proofs::KindEquality::same_kind_is))]
fn has_kind(params: &[Param], arg: u8, kind: Kind) -> bool
    ensures { result ≡ is_of_kind (slice_get params.now arg) kind }
{
    match params.get(arg as usize) {
        None => false,
        Some(param) => param.kind == kind,
    }
}

impl Asked {
    // What is asked of an argument that is wanted as a word.
    fn of_word(self, params: &[Param], arg: u8) -> bool
        ensures { result ≡ passes self params.now (AsWord arg) }
    {
        match self {
            Asked::Known => (arg as usize) < params.len(),
            Asked::Right => has_kind(params, arg, Kind::Word),
        }
    }

    // What is asked of an argument that is wanted as bytes.
    fn of_bytes(self, params: &[Param], arg: u8) -> bool
        ensures { result ≡ passes self params.now (AsBytes arg) }
    {
        match self {
            Asked::Known => (arg as usize) < params.len(),
            Asked::Right => has_kind(params, arg, Kind::Bytes),
        }
    }

    // What is asked of an argument that is wanted as bytes with a field of this width.
    fn of_field(self, params: &[Param], arg: u8, width: u8) -> bool
        ensures { result ≡ passes self params.now (AsField arg width) }
    {
        match self {
            Asked::Known => (arg as usize) < params.len(),
            Asked::Right => has_kind(params, arg, Kind::Bytes) && is_listed(width),
        }
    }
}

// Whether a field may have this width.
fn is_listed(width: u8) -> bool
    ensures { result ≡ is_width width }
{
    width == 1 || width == 2 || width == 4 || width == 8
}

// Whether each argument that an expression reads passes.
pub(crate) fn expr_passes(e: &Expr, params: &[Param], asked: Asked) -> bool
    ensures { result ≡ list_all (passes asked params.now) (expr_uses e.now) }
{
    match e {
        Expr::Const(_) => true,
        Expr::Arg(arg) => asked.of_word(params, *arg),
        Expr::Field { arg, width, .. } => asked.of_field(params, *arg, *width),
        Expr::Plus(a, b) => expr_passes(a, params, asked) && expr_passes(b, params, asked),
        Expr::And(a, b) => expr_passes(a, params, asked) && expr_passes(b, params, asked),
        Expr::Or(a, b) => expr_passes(a, params, asked) && expr_passes(b, params, asked),
    }
}

// Whether each argument that a test reads passes.
pub(crate) fn test_passes(t: &Test, params: &[Param], asked: Asked) -> bool
    ensures { result ≡ list_all (passes asked params.now) (test_uses t.now) }
{
    match t {
        Test::True => true,
        Test::Compare(_, a, b) => expr_passes(a, params, asked) && expr_passes(b, params, asked),
        Test::HasBytes { arg, .. } => asked.of_bytes(params, *arg),
        Test::Not(t) => test_passes(t, params, asked),
        Test::All(a, b) => test_passes(a, params, asked) && test_passes(b, params, asked),
        Test::Any(a, b) => test_passes(a, params, asked) && test_passes(b, params, asked),
    }
}

// Whether each argument that a part reads passes.
fn part_passes(part: &Part, params: &[Param], asked: Asked) -> bool
    ensures { result ≡ list_all (passes asked params.now) (part_uses part.now) }
{
    match part {
        Part::Word(e) => expr_passes(e, params, asked),
        Part::Bytes { arg, .. } => asked.of_bytes(params, *arg),
    }
}

// Whether each argument that the parts read passes.
fn parts_pass(parts: &[Part], params: &[Param], asked: Asked) -> bool
    ensures { result
        ≡ list_all (λ part. list_all (passes asked params.now) (part_uses part)) parts.now }
{
    parts.iter().all(|part| part_passes(part, params, asked))
}

// Whether each argument that a step reads or sets passes.
#[tactic(auto, using(crate::proofs::Sizes::all_of_all))]
fn step_passes(step: &ActStep, params: &[Param], asked: Asked) -> bool
    ensures { result ≡ list_all (passes asked params.now) (step_uses step.now) }
{
    match step {
        ActStep::Set { arg, to } => asked.of_word(params, *arg) && expr_passes(to, params, asked),
        ActStep::Send { arg, .. } => asked.of_bytes(params, *arg),
        ActStep::Result(e) => expr_passes(e, params, asked),
        ActStep::Up { parts, .. } => parts_pass(parts, params, asked),
        ActStep::Layer { .. } => true,
    }
}

// Whether the parameters are those that the headers need.
fn is_layer_right(layer: Layer, params: &[Param]) -> bool
    ensures { result ≡ specs.is_layer_right params.now layer }
{
    match layer {
        Layer::Ipv4 => has_kind(params, 0, Kind::Bytes),
        Layer::Udp => {
            params.len() == 4
                && has_kind(params, 0, Kind::Bytes)
                && has_kind(params, 1, Kind::Word)
                && has_kind(params, 2, Kind::Word)
                && has_kind(params, 3, Kind::Word)
        }
    }
}

// Whether each argument that a step reads or sets has the kind that is wanted, and each width is a listed one.
fn is_step_right(step: &ActStep, params: &[Param]) -> bool
    ensures { result ≡ specs.is_step_right params.now step.now }
{
    match step {
        ActStep::Layer { kind, .. } => is_layer_right(*kind, params),
        _ => step_passes(step, params, Asked::Right),
    }
}

// Whether each argument that the steps read or set is there.
pub(crate) fn are_steps_known(steps: &[ActStep], params: &[Param]) -> bool
    ensures { result ≡ list_all (specs.is_step_known params.now) steps.now }
{
    steps
        .iter()
        .all(|step| step_passes(step, params, Asked::Known))
}

// Whether each argument that the steps read or set has the kind that is wanted, and each width is a listed one.
pub(crate) fn are_steps_right(steps: &[ActStep], params: &[Param]) -> bool
    ensures { result ≡ list_all (specs.is_step_right params.now) steps.now }
{
    steps.iter().all(|step| is_step_right(step, params))
}
