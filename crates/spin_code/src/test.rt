//! Tests: what is asked of arguments.

ghost use Rattle.std.specs.Prelude.{◌≡◌, ◌+◌, IsTrue};
ghost use Rattle.spin_code.specs.Truth.{truth_of, compares};

use crate::expr::{Expr, argument_bytes, value};
use spin_values::{Args, Steps};
use std::sync::ledger::Ledger;

/// How two numbers are compared, both taken as unsigned.
#[derive(Clone, Copy, PartialEq, Eq, Debug)]
pub enum Cmp {
    /// They are equal.
    Eq,
    /// They differ.
    Ne,
    /// The first is less.
    Lt,
    /// The first is less, or they are equal.
    Le,
}

/// What a guard asks of the arguments of a raise.
///
/// Like an [`Expr`], a test is as deep as whoever makes it has bounded it.
#[derive(PartialEq, Drop, Debug)]
pub enum Test {
    /// Always holds.
    True,
    /// The values compare so.
    Compare(Cmp, Expr, Expr),
    /// An argument has at least so many bytes.
    HasBytes {
        /// The number of the argument, counted from 0.
        arg: u8,
        /// How many bytes it has at least.
        length: u16,
    },
    /// The test doesn't hold.
    Not(Box<Test>),
    /// Both tests hold.
    All(Box<Test>, Box<Test>),
    /// At least one of the tests holds.
    Any(Box<Test>, Box<Test>),
}

// Whether two numbers compare so.
#[inline]
fn compare(cmp: Cmp, a: u64, b: u64) -> bool
    ensures { result ≡ compares cmp a b }
{
    match cmp {
        Cmp::Eq => a == b,
        Cmp::Ne => a != b,
        Cmp::Lt => a < b,
        Cmp::Le => a <= b,
    }
}

// Whether a test holds, node by node.
fn is_tree_true(t: &Test, args: &Args) -> bool
    ensures { result ≡ truth_of t.now args.now }
{
    match t {
        Test::True => true,
        Test::Compare(cmp, a, b) => compare(*cmp, value(a, args), value(b, args)),
        Test::HasBytes { arg, length } => *length as usize <= argument_bytes(args, *arg).len(),
        Test::Not(t) => !is_tree_true(t, args),
        Test::All(a, b) => is_tree_true(a, args) && is_tree_true(b, args),
        Test::Any(a, b) => is_tree_true(a, args) || is_tree_true(b, args),
    }
}

// Whether a test holds, without a count: at once where it is a comparison.
#[inline]
fn is_true(t: &Test, args: &Args) -> bool
    ensures { result ≡ truth_of t.now args.now }
{
    match t {
        Test::Compare(cmp, a, b) => compare(*cmp, value(a, args), value(b, args)),
        _ => is_tree_true(t, args),
    }
}

/// Whether a test holds of these arguments, which counts as one step, however large the test is.
///
/// An argument that isn't there, or is of the other kind, counts as by [`value`]. It takes time linear in the
/// test's nodes.
pub fn holds<L: Ledger>(t: &Test, args: &Args, steps: &mut Steps<L>) -> bool
    ensures value { result ≡ truth_of t.now args.now }
    ensures one_step { steps.new ≡ steps.old + 1 }
{
    steps.tick();
    is_true(t, args)
}
