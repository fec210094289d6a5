//! Expressions, of which only those are kept that aren't too deep.

ghost use Rattle.std.specs.Prelude.{◌≡◌, ◌∷◌, ◌<◌, ◌≤◌, ◌+◌, ◌^◌, [], length, IfOk, MatchResult};
ghost use Rattle.spin_code.specs.Size.{expr_depth};
ghost use Rattle.spin_grammar.specs.Grammar as grammar;
ghost use Rattle.spin_grammar.specs.Grammar.{Number, Numeral};
ghost use Rattle.spin_grammar.specs.Inner.Keywords.{sign};
ghost use Rattle.spin_grammar.specs.Forms.{expr_form};
ghost use Rattle.spin_grammar.specs.declared.fault.Fault.TheVariants.{NoMemory};
ghost use Rattle.spin_grammar.specs.Inner.Reading.{Gives, GivesSome, IsThere, Skips, Joins};
ghost use Rattle.spin_grammar.specs.Lines.{IsWithin};

use crate::fault::Fault;
use crate::keywords::{ExprWord, Operator};
use crate::limits::{LAST_ARGUMENT, MAX_OFFSET, MAX_WIDTH};
use crate::tokens::{expr_word, number_from};
use crate::words::Words;
use spin_code::Expr;
use std::alloc::Global;

// Reads what follows the word `f`: an argument, an offset and a width.
#[tactic(auto, using(crate::proofs::ReadingParts::failing))]
pub(crate) fn field(words: &mut Words) -> Result<(u8, u16, u8), Fault>
    ensures gives { Gives (λ f. Numeral f.0 ∷ Numeral f.1 ∷ Numeral f.2 ∷ [])
        (Number 0 LAST_ARGUMENT ∷ Number 0 MAX_OFFSET ∷ Number 0 MAX_WIDTH ∷ []) result words.old
        words.new }
    ensures falls { length words.new ≤ length words.old }
{
    let arg = number_from(words, 0, LAST_ARGUMENT)? as u8;
    let offset = number_from(words, 0, MAX_OFFSET)? as u16;
    let width = number_from(words, 0, MAX_WIDTH)? as u8;
    Ok((arg, offset, width))
}

// Reads the first word of an expression, and what belongs to it alone, where so many expressions
// are wanted.
// Answers how many are wanted then.
#[tactic(auto, using(crate::proofs::ReadingParts::failing))]
fn skip_head(words: &mut Words, wanted: u64) -> Result<u64, Fault>
    requires some { 0 < wanted }
    requires room { wanted + length words.old < 2 ^ 64 }
    ensures skips { Skips expr_form grammar.Expression wanted result words.old words.new }
    ensures falls { length words.new ≤ length words.old }
    ensures room { IfOk result (λ n. (length words.new < length words.old)
        × (n + length words.new ≤ wanted + length words.old)) }
{
    match expr_word(words)? {
        ExprWord::Const(_) => Ok(wanted - 1),
        ExprWord::Arg(_) => Ok(wanted - 1),
        ExprWord::Field => {
            field(words)?;
            Ok(wanted - 1)
        }
        ExprWord::Binary(_) => Ok(wanted + 1),
    }
}

// Reads an expression of any depth, and keeps nothing of it. It takes no stack: it counts what is
// still wanted.
pub(crate) fn skip_expression(words: &mut Words) -> Result<(), Fault>
    requires { length words.old < 2 ^ 32 }
    ensures gives { GivesSome IsThere expr_form (grammar.Expression ∷ []) result words.old
        words.new }
    ensures falls { length words.new ≤ length words.old }
{
    let mut wanted: u64 = 1;
    while wanted > 0 {
        wanted = skip_head(words, wanted)?;
    }
    Ok(())
}

// The two joined, where both are there.
fn join(
    alloc: Global,
    operator: Operator,
    left: Option<Expr>,
    right: Option<Expr>,
) -> Result<Option<Expr>, Fault>
    ensures { MatchResult result (λ o. Joins expr_form expr_depth expr_form expr_depth
        (sign operator) left right o) (λ f. f ≡ NoMemory) }
{
    let Some((left, right)) = left.zip(right) else {
        return Ok(None);
    };
    let left = Box::new(alloc, left)?;
    let right = Box::new(alloc, right)?;
    Ok(Some(match operator {
        Operator::Plus => Expr::Plus(left, right),
        Operator::And => Expr::And(left, right),
        Operator::Or => Expr::Or(left, right),
    }))
}

// Reads an expression, and keeps it where it has at most so many levels. It goes no deeper into
// the stack than
// that, however deep the expression is.
#[tactic(auto, using(crate::proofs::ReadingParts::failing))]
pub(crate) fn read_expression(
    alloc: Global,
    words: &mut Words,
    limit: u8,
) -> Result<Option<Expr>, Fault>
    requires { length words.old < 2 ^ 32 }
    ensures gives { GivesSome (IsWithin expr_depth limit) expr_form (grammar.Expression ∷ [])
        result words.old words.new }
    ensures falls { length words.new ≤ length words.old }
{
    if limit == 0 {
        skip_expression(words)?;
        return Ok(None);
    }
    match expr_word(words)? {
        ExprWord::Const(number) => Ok(Some(Expr::Const(number))),
        ExprWord::Arg(arg) => Ok(Some(Expr::Arg(arg))),
        ExprWord::Field => {
            let (arg, offset, width) = field(words)?;
            Ok(Some(Expr::Field { arg, offset, width }))
        }
        ExprWord::Binary(operator) => {
            let left = read_expression(alloc, words, limit - 1)?;
            let right = read_expression(alloc, words, limit - 1)?;
            join(alloc, operator, left, right)
        }
    }
}
