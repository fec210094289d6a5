//! Rules of policies.

ghost use Rattle.std.specs.Prelude.{◌≡◌, ◌≤◌, ◌∷◌, [], false, length, IfOk};
ghost use Rattle.spin_policy.specs.Verdicts.{has_wrong_guards};
ghost use Rattle.spin_grammar.specs.Grammar as grammar;
ghost use Rattle.spin_grammar.specs.Grammar.{Number, Counted};
ghost use Rattle.spin_grammar.specs.Forms.{counted_form, effect_form, rule_form};
ghost use Rattle.spin_grammar.specs.Inner.Reading.{Gives};

use crate::fault::Fault;
use crate::keywords::EffectWord;
use crate::limits::{LAST_GUARD, LAST_MODULE, MAX_IMPOSED, MAX_QUOTA};
use crate::tokens::{
    apart_word, count_from, effect_word, forced_word, handler_word, number_from, op_word, own_word,
};
use crate::words::Words;
use spin_policy::{Effect, Rule};
use spin_values::Numbers;
use std::alloc::Global;

// Reads the numbers of guards behind their count, which is from low to [`MAX_IMPOSED`].
fn read_guards(alloc: Global, words: &mut Words, low: u64) -> Result<Numbers, Fault>
    ensures gives { Gives counted_form (Counted low MAX_IMPOSED (Number 1 LAST_GUARD) ∷ []) result
        words.old words.new }
    ensures few { IfOk result (λ guards. (low ≤ length guards) × (length guards ≤ MAX_IMPOSED)) }
{
    let count = count_from(words, low, MAX_IMPOSED)?;
    let mut guards = Numbers::new(alloc);
    for _ in 0..count {
        guards.push(number_from(words, 1, LAST_GUARD)? as u16)?;
    }
    Ok(guards)
}

// Reads what a rule decides, in a script of this version.
#[tactic(auto, using(crate::proofs::ReadingParts::failing))]
fn read_effect(alloc: Global, words: &mut Words, version: u8) -> Result<Effect, Fault>
    ensures gives { Gives effect_form (grammar.Effect version ∷ []) result words.old words.new }
    ensures few { IfOk result (λ effect. has_wrong_guards effect ≡ false) }
{
    match effect_word(words, version)? {
        EffectWord::Allow => Ok(Effect::Allow),
        EffectWord::Deny => Ok(Effect::Deny),
        EffectWord::Quota => Ok(Effect::Quota(number_from(words, 0, MAX_QUOTA)? as u16)),
        EffectWord::Impose => Ok(Effect::Impose(read_guards(alloc, words, 1)?)),
        EffectWord::Force => {
            let guards = read_guards(alloc, words, 0)?;
            let place = forced_word(words)?;
            let apart = apart_word(words)?;
            Ok(Effect::Force {
                guards,
                place,
                apart,
            })
        }
    }
}

// Reads a rule, in a script of this version.
#[tactic(auto, using(crate::proofs::ReadingParts::failing))]
pub(crate) fn read_rule(alloc: Global, words: &mut Words, version: u8) -> Result<Rule, Fault>
    ensures gives { Gives rule_form (Number 0 LAST_MODULE ∷ Number 0 LAST_MODULE ∷ grammar.Op
        ∷ grammar.HandlerOrAny ∷ grammar.Own ∷ grammar.Effect version ∷ []) result words.old
        words.new }
    ensures few { IfOk result (λ rule. has_wrong_guards rule.effect ≡ false) }
{
    let low = number_from(words, 0, LAST_MODULE)? as u8;
    let high = number_from(words, 0, LAST_MODULE)? as u8;
    let op = op_word(words)?;
    let handler = handler_word(words)?;
    let own_only = own_word(words)?;
    let effect = read_effect(alloc, words, version)?;
    Ok(Rule {
        low,
        high,
        op,
        handler,
        own_only,
        effect,
    })
}
