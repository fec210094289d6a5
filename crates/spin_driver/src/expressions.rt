//! Expressions and tests that no script has: of another width or kind, or of an argument that isn't there.
//!
//! - `value ARGUMENTS EXPRESSION`: its value, where an expression is a number, `arg:NUMBER` or
//!   `field:ARGUMENT:OFFSET:WIDTH`;
//! - `has_bytes ARGUMENTS NUMBER LENGTH`: whether the argument has at least so many bytes.

ghost use Rattle.std.specs.Prelude.{◌≡◌, ◌<◌};

use crate::fault::Fault;
use crate::told::tell;
use crate::words::{Words, number};
use spin_code::{Expr, Test, holds, value};
use spin_values::{Args, Steps};
use std::alloc::Global;
use std::marker::Brand;
use std::sync::ledger::{Blank, Ledger};

// What is asked.
#[derive(Clone, Copy)]
enum Kind {
    Value,
    HasBytes,
}

const KINDS: [(&str, Kind); 2] = [("value", Kind::Value), ("has_bytes", Kind::HasBytes)];

pub(crate) fn answer(alloc: Global, words: &mut Words, out: &mut String) -> Result<(), Fault> {
    let kind = words.one_of(&KINDS)?;
    let args = words.args(alloc)?;
    match kind {
        Kind::Value => tell(out, &value(&expr(words)?, &args)),
        Kind::HasBytes => bytes_are_there(&args, words, out),
    }
}

// The expression that the parts of a word are.
fn expr_of(word: &str) -> Result<Expr, Fault> {
    if let Some(parts) = word.strip_prefix("arg:") {
        return Ok(Expr::Arg(Words::parts(parts).u8()?));
    }
    if let Some(parts) = word.strip_prefix("field:") {
        let mut parts = Words::parts(parts);
        return Ok(Expr::Field {
            arg: parts.u8()?,
            offset: parts.u16()?,
            width: parts.u8()?,
        });
    }
    Ok(Expr::Const(number(word)?))
}

/// The expression that the next word is.
pub(crate) fn expr(words: &mut Words) -> Result<Expr, Fault> {
    expr_of(words.word()?)
}

// Whether the argument has at least so many bytes, by a counter of its own.
fn has_bytes<L: Ledger>(args: &Args, arg: u8, length: u16, blank: Blank) -> bool
    requires name { blank.name ≡ L.name }
    requires parts { blank.parts ≡ L.parts }
    requires some { 0 < L.parts }
{
    let mut steps = Steps::<L>::new(blank);
    holds(&Test::HasBytes { arg, length }, args, &mut steps)
}

fn bytes_are_there(args: &Args, words: &mut Words, out: &mut String) -> Result<(), Fault> {
    let (arg, length) = (words.u8()?, words.u16()?);
    tell(out, &has_bytes::<Brand>(args, arg, length, Blank::new(1)))
}
