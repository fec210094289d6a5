//! Parts, steps and merges, of which only those are kept whose expressions aren't too deep.

ghost use Rattle.std.specs.Prelude.{◌≡◌, ◌∷◌, ◌<◌, ◌≤◌, ◌^◌, [], length, IfOk};
ghost use Rattle.spin_code.specs.Size.{is_part_deep, is_step_deep};
ghost use Rattle.spin_grammar.specs.Grammar as grammar;
ghost use Rattle.spin_grammar.specs.Forms.{part_form, steps_form, merge_form};
ghost use Rattle.spin_grammar.specs.Inner.Reading.{GivesSome, GivesParts, GivesStep};
ghost use Rattle.spin_grammar.specs.Lines.{IsKept, is_merge_deep};
ghost use Rattle.std.specs.List.{list_any};

use crate::expression::read_expression;
use crate::fault::Fault;
use crate::keywords::{MergeWord, PartWord, StepWord};
use crate::limits::{LAST_ARGUMENT, LAST_ENDPOINT, LAST_EVENT, MAX_OFFSET, MAX_PARTS};
use crate::tokens::{count_from, layer_word, merge_word, number_from, part_word, step_word};
use crate::words::Words;
use spin_code::{ActStep, MAX_DEPTH, Merge, Part, Parts, Steplist};
use std::alloc::Global;

// Reads a part of a raise upwards, and keeps it where its expression isn't too deep.
#[tactic(auto, using(crate::proofs::ReadingParts::failing))]
fn read_part(alloc: Global, words: &mut Words) -> Result<Option<Part>, Fault>
    requires { length words.old < 2 ^ 31 }
    ensures gives { GivesSome (IsKept is_part_deep) part_form (grammar.Part ∷ []) result words.old
        words.new }
    ensures falls { length words.new ≤ length words.old }
{
    match part_word(words)? {
        PartWord::Word => match read_expression(alloc, words, MAX_DEPTH)? {
            None => Ok(None),
            Some(word) => Ok(Some(Part::Word(word))),
        },
        PartWord::Bytes => {
            let arg = number_from(words, 0, LAST_ARGUMENT)? as u8;
            let from = number_from(words, 0, MAX_OFFSET)? as u16;
            Ok(Some(Part::Bytes { arg, from }))
        }
    }
}

// Reads so many parts, and keeps them where no expression is too deep.
fn read_parts(alloc: Global, words: &mut Words, count: u64) -> Result<Option<Parts>, Fault>
    requires { length words.old < 2 ^ 31 }
    ensures gives { GivesParts count result words.old words.new }
    ensures falls { length words.new ≤ length words.old }
{
    let mut parts = Parts::new(alloc);
    let mut deep = false;
    for _ in 0..count {
        match read_part(alloc, words)? {
            Some(part) => parts.push(part)?,
            None => deep = true,
        }
    }
    if deep {
        return Ok(None);
    }
    Ok(Some(parts))
}

// Reads the rest of a step that begins with this word, and keeps the step where no expression of
// it is too deep.
#[tactic(auto, using(crate::proofs::ReadingParts::failing))]
fn read_step(alloc: Global, words: &mut Words, word: StepWord) -> Result<Option<ActStep>, Fault>
    requires { length words.old < 2 ^ 31 }
    ensures gives { GivesStep word result words.old words.new }
    ensures falls { length words.new ≤ length words.old }
{
    match word {
        StepWord::Set => {
            let arg = number_from(words, 0, LAST_ARGUMENT)? as u8;
            match read_expression(alloc, words, MAX_DEPTH)? {
                None => Ok(None),
                Some(to) => Ok(Some(ActStep::Set { arg, to })),
            }
        }
        StepWord::Send => {
            let endpoint = number_from(words, 0, LAST_ENDPOINT)? as u8;
            let arg = number_from(words, 0, LAST_ARGUMENT)? as u8;
            let from = number_from(words, 0, MAX_OFFSET)? as u16;
            Ok(Some(ActStep::Send {
                endpoint,
                arg,
                from,
            }))
        }
        StepWord::Result => match read_expression(alloc, words, MAX_DEPTH)? {
            None => Ok(None),
            Some(result) => Ok(Some(ActStep::Result(result))),
        },
        StepWord::Up => {
            let event = number_from(words, 0, LAST_EVENT)? as u8;
            let count = count_from(words, 0, MAX_PARTS)?;
            match read_parts(alloc, words, count)? {
                None => Ok(None),
                Some(parts) => Ok(Some(ActStep::Up { event, parts })),
            }
        }
        StepWord::Layer => {
            let kind = layer_word(words)?;
            let event = number_from(words, 0, LAST_EVENT)? as u8;
            Ok(Some(ActStep::Layer { kind, event }))
        }
    }
}

// Reads all steps up to the line's end, and keeps them where no expression is too deep.
pub(crate) fn read_steps(alloc: Global, words: &mut Words) -> Result<Option<Steplist>, Fault>
    requires { length words.old < 2 ^ 31 }
    ensures { GivesSome (IsKept (list_any is_step_deep)) steps_form (grammar.Steps ∷ []) result
        words.old words.new }
{
    let mut steps = Steplist::new(alloc);
    let mut deep = false;
    while let Some(word) = step_word(words)? {
        match read_step(alloc, words, word)? {
            Some(step) => steps.push(step)?,
            None => deep = true,
        }
    }
    if deep {
        return Ok(None);
    }
    Ok(Some(steps))
}

// Reads a merge, and keeps it where its expression isn't too deep.
#[tactic(auto, using(crate::proofs::ReadingParts::failing))]
pub(crate) fn read_merge(alloc: Global, words: &mut Words) -> Result<Option<Merge>, Fault>
    requires { length words.old < 2 ^ 31 }
    ensures { GivesSome (IsKept is_merge_deep) merge_form (grammar.Merge ∷ []) result words.old
        words.new }
{
    match merge_word(words)? {
        MergeWord::Last => Ok(Some(Merge::Last)),
        MergeWord::Fold => match read_expression(alloc, words, MAX_DEPTH)? {
            None => Ok(None),
            Some(fold) => Ok(Some(Merge::Fold(fold))),
        },
    }
}
