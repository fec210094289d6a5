//! Tests, of which only those are kept that aren't too deep.

ghost use Rattle.std.specs.Prelude.{◌≡◌, ◌∷◌, ◌<◌, ◌≤◌, ◌+◌, ◌^◌, [], length, IfOk, MatchResult};
ghost use Rattle.spin_code.specs.Size.{expr_depth, test_depth};
ghost use Rattle.spin_grammar.specs.declared.fault.Fault.TheVariants.{NoMemory};
ghost use Rattle.spin_grammar.specs.Grammar as grammar;
ghost use Rattle.spin_grammar.specs.Grammar.{Number, Numeral};
ghost use Rattle.spin_grammar.specs.Inner.Keywords.{joint_word};
ghost use Rattle.spin_grammar.specs.Forms.{expr_form, test_form, cmp_word};
ghost use Rattle.spin_grammar.specs.Inner.Reading.{Gives, GivesSome, IsThere, Skips, Joins};
ghost use Rattle.spin_grammar.specs.Inner.Reading.{Negates};
ghost use Rattle.spin_grammar.specs.Lines.{IsWithin};

use crate::expression::{read_expression, skip_expression};
use crate::fault::Fault;
use crate::keywords::{Connective, TestWord};
use crate::limits::{LAST_ARGUMENT, MAX_OFFSET};
use crate::tokens::{number_from, test_word};
use crate::words::Words;
use spin_code::{Cmp, Expr, Test};
use std::alloc::Global;

// Reads what follows the word `has`: an argument and a length.
#[tactic(auto, using(crate::proofs::ReadingParts::failing))]
fn has(words: &mut Words) -> Result<(u8, u16), Fault>
    ensures gives { Gives (λ h. Numeral h.0 ∷ Numeral h.1 ∷ [])
        (Number 0 LAST_ARGUMENT ∷ Number 0 MAX_OFFSET ∷ []) result words.old words.new }
    ensures falls { length words.new ≤ length words.old }
{
    let arg = number_from(words, 0, LAST_ARGUMENT)? as u8;
    let length = number_from(words, 0, MAX_OFFSET)? as u16;
    Ok((arg, length))
}

// Reads the first word of a test, and what belongs to it alone, where so many tests are wanted.
// Answers how many
// are wanted then.
#[tactic(auto, using(crate::proofs::ReadingParts::failing))]
fn skip_test_head(words: &mut Words, wanted: u64) -> Result<u64, Fault>
    requires some { 0 < wanted }
    requires room { wanted + length words.old < 2 ^ 32 }
    ensures skips { Skips test_form grammar.Test wanted result words.old words.new }
    ensures falls { length words.new ≤ length words.old }
    ensures room { IfOk result (λ n. (length words.new < length words.old)
        × (n + length words.new ≤ wanted + length words.old)) }
{
    match test_word(words)? {
        TestWord::True => Ok(wanted - 1),
        TestWord::Compare(_) => {
            skip_expression(words)?;
            skip_expression(words)?;
            Ok(wanted - 1)
        }
        TestWord::Has => {
            has(words)?;
            Ok(wanted - 1)
        }
        TestWord::Not => Ok(wanted),
        TestWord::Pair(_) => Ok(wanted + 1),
    }
}

// Reads a test of any depth, and keeps nothing of it. It takes no stack: it counts what is still
// wanted.
fn skip_test(words: &mut Words) -> Result<(), Fault>
    requires { length words.old < 2 ^ 31 }
    ensures gives { GivesSome IsThere test_form (grammar.Test ∷ []) result words.old words.new }
    ensures falls { length words.new ≤ length words.old }
{
    let mut wanted: u64 = 1;
    while wanted > 0 {
        wanted = skip_test_head(words, wanted)?;
    }
    Ok(())
}

// The comparison of the two, where both are there.
fn compare(cmp: Cmp, left: Option<Expr>, right: Option<Expr>) -> Option<Test>
    ensures { Joins expr_form expr_depth test_form test_depth (cmp_word cmp) left right result }
{
    let Some((left, right)) = left.zip(right) else {
        return None;
    };
    Some(Test::Compare(cmp, left, right))
}

// The two joined, where both are there.
fn pair(
    alloc: Global,
    joint: Connective,
    left: Option<Test>,
    right: Option<Test>,
) -> Result<Option<Test>, Fault>
    ensures { MatchResult result (λ o. Joins test_form test_depth test_form test_depth
        (joint_word joint) left right o) (λ f. f ≡ NoMemory) }
{
    let Some((left, right)) = left.zip(right) else {
        return Ok(None);
    };
    let left = Box::new(alloc, left)?;
    let right = Box::new(alloc, right)?;
    Ok(Some(match joint {
        Connective::All => Test::All(left, right),
        Connective::Any => Test::Any(left, right),
    }))
}

// The test turned round, where it is there.
fn negate(alloc: Global, test: Option<Test>) -> Result<Option<Test>, Fault>
    ensures { MatchResult result (λ o. Negates test o) (λ f. f ≡ NoMemory) }
{
    match test {
        None => Ok(None),
        Some(test) => Ok(Some(Test::Not(Box::new(alloc, test)?))),
    }
}

// Reads a test, and keeps it where it has at most so many levels, those of its expressions among
// them. It goes no
// deeper into the stack than that, however deep the test is.
#[tactic(auto, using(crate::proofs::ReadingParts::failing))]
pub(crate) fn read_test(alloc: Global, words: &mut Words, limit: u8) -> Result<Option<Test>, Fault>
    requires { length words.old < 2 ^ 31 }
    ensures gives { GivesSome (IsWithin test_depth limit) test_form (grammar.Test ∷ []) result
        words.old words.new }
    ensures falls { length words.new ≤ length words.old }
{
    if limit == 0 {
        skip_test(words)?;
        return Ok(None);
    }
    match test_word(words)? {
        TestWord::True => Ok(Some(Test::True)),
        TestWord::Compare(cmp) => {
            let left = read_expression(alloc, words, limit - 1)?;
            let right = read_expression(alloc, words, limit - 1)?;
            Ok(compare(cmp, left, right))
        }
        TestWord::Has => {
            let (arg, length) = has(words)?;
            Ok(Some(Test::HasBytes { arg, length }))
        }
        TestWord::Not => {
            let test = read_test(alloc, words, limit - 1)?;
            negate(alloc, test)
        }
        TestWord::Pair(joint) => {
            let left = read_test(alloc, words, limit - 1)?;
            let right = read_test(alloc, words, limit - 1)?;
            pair(alloc, joint, left, right)
        }
    }
}
