//! The words of expressions, tests, steps and merges.

ghost use Rattle.std.specs.Prelude.{◌≡◌, ◌++◌, OnOk};
ghost use Rattle.std.specs.List.{flat_map};
ghost use Rattle.spin_grammar.specs.Forms.{cmp_word, layer_word, expr_form, test_form};
ghost use Rattle.spin_grammar.specs.Forms.{part_form, step_form, steps_form, merge_form};
ghost use Rattle.spin_script.specs.Canonical.{spoken};

use crate::write::words::put_argument;
use spin_code::{ActStep, Cmp, Expr, Layer, Merge, Part, Test};
use spin_text::{put_number, put_word};
use spin_values::{NoMemory, Octets};

// Appends an expression. It goes as deep into the stack as the expression is deep.
fn put_expression(out: &mut Octets, expression: &Expr) -> Result<(), NoMemory>
    ensures { OnOk result (out.new ≡ out.old ++ spoken (expr_form expression.now)) }
{
    match expression {
        Expr::Const(number) => put_number(out, *number),
        Expr::Arg(argument) => put_argument(out, *argument),
        Expr::Field { arg, offset, width } => {
            put_word(out, b"f")?;
            put_number(out, u64::from(*arg))?;
            put_number(out, u64::from(*offset))?;
            put_number(out, u64::from(*width))
        }
        Expr::Plus(left, right) => {
            put_word(out, b"+")?;
            put_expression(out, left)?;
            put_expression(out, right)
        }
        Expr::And(left, right) => {
            put_word(out, b"&")?;
            put_expression(out, left)?;
            put_expression(out, right)
        }
        Expr::Or(left, right) => {
            put_word(out, b"|")?;
            put_expression(out, left)?;
            put_expression(out, right)
        }
    }
}

fn cmp_word(cmp: Cmp) -> &'static [u8]
    ensures { result.now ≡ cmp_word cmp }
{
    match cmp {
        Cmp::Eq => b"==",
        Cmp::Ne => b"!=",
        Cmp::Lt => b"<",
        Cmp::Le => b"<=",
    }
}

// Appends a test. It goes as deep into the stack as the test is deep.
pub(super) fn put_test(out: &mut Octets, test: &Test) -> Result<(), NoMemory>
    ensures { OnOk result (out.new ≡ out.old ++ spoken (test_form test.now)) }
{
    match test {
        Test::True => put_word(out, b"true"),
        Test::Compare(cmp, left, right) => {
            put_word(out, cmp_word(*cmp))?;
            put_expression(out, left)?;
            put_expression(out, right)
        }
        Test::HasBytes { arg, length } => {
            put_word(out, b"has")?;
            put_number(out, u64::from(*arg))?;
            put_number(out, u64::from(*length))
        }
        Test::Not(test) => {
            put_word(out, b"not")?;
            put_test(out, test)
        }
        Test::All(left, right) => {
            put_word(out, b"all")?;
            put_test(out, left)?;
            put_test(out, right)
        }
        Test::Any(left, right) => {
            put_word(out, b"any")?;
            put_test(out, left)?;
            put_test(out, right)
        }
    }
}

fn put_part(out: &mut Octets, part: &Part) -> Result<(), NoMemory>
    ensures { OnOk result (out.new ≡ out.old ++ spoken (part_form part.now)) }
{
    match part {
        Part::Word(expression) => {
            put_word(out, b"w")?;
            put_expression(out, expression)
        }
        Part::Bytes { arg, from } => {
            put_word(out, b"b")?;
            put_number(out, u64::from(*arg))?;
            put_number(out, u64::from(*from))
        }
    }
}

fn put_parts(out: &mut Octets, parts: &[Part]) -> Result<(), NoMemory>
    ensures { OnOk result (out.new ≡ out.old ++ spoken (flat_map part_form parts.now)) }
{
    for part in parts {
        put_part(out, part)?;
    }
    Ok(())
}

fn layer_word(layer: Layer) -> &'static [u8]
    ensures { result.now ≡ layer_word layer }
{
    match layer {
        Layer::Ipv4 => b"ipv4",
        Layer::Udp => b"udp",
    }
}

fn put_step(out: &mut Octets, step: &ActStep) -> Result<(), NoMemory>
    ensures { OnOk result (out.new ≡ out.old ++ spoken (step_form step.now)) }
{
    match step {
        ActStep::Set { arg, to } => {
            put_word(out, b"set")?;
            put_number(out, u64::from(*arg))?;
            put_expression(out, to)
        }
        ActStep::Send {
            endpoint,
            arg,
            from,
        } => {
            put_word(out, b"send")?;
            put_number(out, u64::from(*endpoint))?;
            put_number(out, u64::from(*arg))?;
            put_number(out, u64::from(*from))
        }
        ActStep::Result(expression) => {
            put_word(out, b"result")?;
            put_expression(out, expression)
        }
        ActStep::Up { event, parts } => {
            put_word(out, b"up")?;
            put_number(out, u64::from(*event))?;
            put_number(out, parts.len() as u64)?;
            put_parts(out, parts.as_slice())
        }
        ActStep::Layer { kind, event } => {
            put_word(out, b"layer")?;
            put_word(out, layer_word(*kind))?;
            put_number(out, u64::from(*event))
        }
    }
}

// Appends steps in their order.
pub(super) fn put_steps(out: &mut Octets, steps: &[ActStep]) -> Result<(), NoMemory>
    ensures { OnOk result (out.new ≡ out.old ++ spoken (steps_form steps.now)) }
{
    for step in steps {
        put_step(out, step)?;
    }
    Ok(())
}

// Appends a merge.
pub(super) fn put_merge(out: &mut Octets, merge: &Merge) -> Result<(), NoMemory>
    ensures { OnOk result (out.new ≡ out.old ++ spoken (merge_form merge.now)) }
{
    match merge {
        Merge::Last => put_word(out, b"last"),
        Merge::Fold(expression) => {
            put_word(out, b"fold")?;
            put_expression(out, expression)
        }
    }
}
