//! Expressions: numbers that are computed from arguments.

ghost use Rattle.std.specs.Prelude.{◌≡◌, ◌^◌, ◌<◌};
ghost use Rattle.spin_code.specs.Value.{value_of, field_of, word_at, bytes_at};

use spin_values::{Args, Value};

/// A number that is computed from the arguments of a raise.
///
/// An expression is a tree whose reading, evaluation and dropping go as deep into the stack as it is deep.
/// Nothing here keeps it from being deep: whoever makes one bounds its depth while making it, and the checks of
/// this crate refuse more than [`MAX_DEPTH`](crate::MAX_DEPTH) levels, going no deeper than that themselves.
#[derive(PartialEq, Drop, Debug)]
pub enum Expr {
    /// This number.
    Const(u64),
    /// The word of the argument of this number, counted from 0.
    Arg(u8),
    /// A number that stands in an argument's bytes, most significant byte first: `width` bytes from `offset` on.
    Field {
        /// The number of the argument, counted from 0.
        arg: u8,
        /// How many bytes stand before the field.
        offset: u16,
        /// How many bytes it has: 1, 2, 4 or 8.
        width: u8,
    },
    /// The sum, modulo 2^64.
    Plus(Box<Expr>, Box<Expr>),
    /// The bits that are set in both.
    And(Box<Expr>, Box<Expr>),
    /// The bits that are set in at least one.
    Or(Box<Expr>, Box<Expr>),
}

/// The word of an argument, counted from 0: 0 where it isn't there or is bytes.
#[inline]
pub fn argument_word(args: &Args, arg: u8) -> u64
    ensures { result ≡ word_at args.now arg }
{
    let at = arg as usize;
    if at >= args.len() {
        return 0;
    }
    match args.get(at) {
        Value::Word(word) => *word,
        Value::Bytes(_) => 0,
    }
}

/// The bytes of an argument, counted from 0: none where it isn't there or is a word.
#[inline]
pub fn argument_bytes(args: &Args, arg: u8) -> &[u8]
    ensures { result.now ≡ bytes_at args.now arg }
{
    let at = arg as usize;
    if at >= args.len() {
        return &[];
    }
    match args.get(at) {
        Value::Word(_) => &[],
        Value::Bytes(bytes) => bytes.as_slice(),
    }
}

// The number that stands at an offset, most significant byte first: 0 where it reaches past the end or its width
// isn't a listed one.
fn field(bytes: &[u8], offset: u16, width: u8) -> u64
    ensures { result ≡ field_of bytes.now offset width }
{
    let from = offset as usize;
    let to = from + width as usize;
    if to > bytes.len() {
        return 0;
    }
    let part = &bytes[from..to];
    match width {
        1 => part[0] as u64,
        2 => u16::from_be_bytes([part[0], part[1]]) as u64,
        4 => u32::from_be_bytes([part[0], part[1], part[2], part[3]]) as u64,
        8 => u64::from_be_bytes([
            part[0], part[1], part[2], part[3], part[4], part[5], part[6], part[7],
        ]),
        _ => 0,
    }
}

// The value of an expression, node by node.
#[cycle(value)]
fn tree_value(e: &Expr, args: &Args) -> u64
    ensures { result ≡ value_of e.now args.now }
{
    match e {
        Expr::Const(number) => *number,
        Expr::Arg(arg) => argument_word(args, *arg),
        Expr::Field { arg, offset, width } => field(argument_bytes(args, *arg), *offset, *width),
        Expr::Plus(a, b) => value(a, args).wrapping_add(value(b, args)),
        Expr::And(a, b) => value(a, args) & value(b, args),
        Expr::Or(a, b) => value(a, args) | value(b, args),
    }
}

/// The value of an expression over these arguments.
///
/// An argument that isn't there, or is of the other kind, counts as 0 where a word is wanted and as no bytes where
/// bytes are wanted. A field that reaches past the end of its bytes is 0, and so is one whose width isn't 1, 2, 4
/// or 8. It takes time linear in the expression's nodes, and no call where it is a number or an argument.
#[inline]
#[cycle(value)]
pub fn value(e: &Expr, args: &Args) -> u64
    ensures { result ≡ value_of e.now args.now }
{
    match e {
        Expr::Const(number) => *number,
        Expr::Arg(arg) => argument_word(args, *arg),
        _ => tree_value(e, args),
    }
}
