//! Readers of what a single word says.

ghost use Rattle.std.specs.Prelude.{◌≡◌, ◌<◌, ◌≤◌, ◌+◌, ◌∷◌, [], ℕ, length, replicate, IfOk};
ghost use Rattle.spin_grammar.specs.Grammar as grammar;
ghost use Rattle.spin_grammar.specs.Grammar.{Want, Fixed, Number, Numeral, Counted, Bindings};
ghost use Rattle.spin_grammar.specs.Grammar.{Rising, rising};
ghost use Rattle.spin_grammar.specs.Inner.Keywords.{expr_next, test_next, part_next, step_next};
ghost use Rattle.spin_grammar.specs.Inner.Keywords.{layer_next, merge_next, op_next, handler_next};
ghost use Rattle.spin_grammar.specs.Inner.Keywords.{own_next, effect_next, forced_next, apart_next};
ghost use Rattle.spin_grammar.specs.Inner.Keywords.{spot_next, place_next, mode_next, deed_next};
ghost use Rattle.spin_grammar.specs.Inner.Reading.{Gives, Opens, GivesHead, ReadsNumber};

use crate::cause::Cause;
use crate::fault::Fault;
use crate::keywords;
use crate::keywords::{
    DeedWord, EffectWord, ExprWord, MergeWord, PartWord, SpotWord, StepWord, TestWord,
};
use crate::limits::{LAST_PLACE, MAX_NAMED};
use crate::number::number_of;
use crate::words::{Words, next_word};
use spin_code::Layer;
use spin_policy::{Forced, OpMatch};
use spin_word::{Mode, Place};

// Reads a number from low to high, whatever it is for.
fn read_number(words: &mut Words, low: u64, high: u64) -> Result<u64, Fault>
    ensures reads { ReadsNumber low high result words.old words.new }
    ensures range { IfOk result (λ n. (low ≤ n) × (n ≤ high)) }
    ensures falls { length words.new ≤ length words.old }
{
    let Some(number) = number_of(next_word(words)?) else {
        return Err(Fault::Bad(Cause::Number));
    };
    if number < low || number > high {
        return Err(Fault::Bad(Cause::Number));
    }
    Ok(number)
}

// Reads a number from low to high.
pub(crate) fn number_from(words: &mut Words, low: u64, high: u64) -> Result<u64, Fault>
    ensures gives { Gives (λ n. Numeral n ∷ []) (Number low high ∷ []) result words.old words.new }
    ensures range { IfOk result (λ n. (low ≤ n) × (n ≤ high)) }
    ensures falls { length words.new ≤ length words.old }
{
    read_number(words, low, high)
}

// Reads the count, from low to high, of things that follow.
pub(crate) fn count_from(words: &mut Words, low: u64, high: u64) -> Result<u64, Fault>
    ensures opens { (want : Want) → Opens (λ n. (Numeral n, replicate n want))
        (Counted low high want) result words.old words.new }
    ensures range { IfOk result (λ n. (low ≤ n) × (n ≤ high)) }
    ensures falls { length words.new ≤ length words.old }
{
    read_number(words, low, high)
}

// Reads the count of bindings that follow.
pub(crate) fn bindings_count(words: &mut Words) -> Result<u64, Fault>
    ensures opens { Opens (λ n. (Numeral n, rising 0 n)) Bindings result words.old words.new }
    ensures range { IfOk result (λ n. n ≤ MAX_NAMED) }
{
    read_number(words, 0, MAX_NAMED)
}

// Reads the number of a binding from low on.
pub(crate) fn binding_from(words: &mut Words, low: u64) -> Result<u64, Fault>
    ensures opens { (more : ℕ) → Opens (λ n. (Numeral n, rising (n + 1) more)) (Rising low more)
        result words.old words.new }
    ensures range { IfOk result (λ n. (low ≤ n) × (n ≤ LAST_PLACE)) }
{
    read_number(words, low, LAST_PLACE)
}

// Reads the first word of an expression.
#[tactic(auto, unfolding(crate::specs::Grammar::reads))]
pub(crate) fn expr_word(words: &mut Words) -> Result<ExprWord, Fault>
    ensures opens { Opens expr_next grammar.Expression result words.old words.new }
    ensures falls { length words.new ≤ length words.old }
    ensures less { IfOk result (λ _. length words.new < length words.old) }
{
    Ok(keywords::expr_word(next_word(words)?)?)
}

// Reads the first word of a test.
#[tactic(auto, unfolding(crate::specs::Grammar::reads))]
pub(crate) fn test_word(words: &mut Words) -> Result<TestWord, Fault>
    ensures opens { Opens test_next grammar.Test result words.old words.new }
    ensures falls { length words.new ≤ length words.old }
    ensures less { IfOk result (λ _. length words.new < length words.old) }
{
    Ok(keywords::test_word(next_word(words)?)?)
}

// Reads the first word of a part.
#[tactic(auto, unfolding(crate::specs::Grammar::reads))]
pub(crate) fn part_word(words: &mut Words) -> Result<PartWord, Fault>
    ensures opens { Opens part_next grammar.Part result words.old words.new }
    ensures falls { length words.new ≤ length words.old }
{
    Ok(keywords::part_word(next_word(words)?)?)
}

// Reads the first word of the next step; `None` at the line's end.
#[tactic(auto, unfolding(crate::specs::Grammar::reads))]
pub(crate) fn step_word(words: &mut Words) -> Result<Option<StepWord>, Fault>
    ensures { GivesHead result words.old words.new }
{
    match words.next() {
        None => Ok(None),
        Some(word) => Ok(Some(keywords::step_word(word)?)),
    }
}

// Reads the headers that a layer step reads.
#[tactic(auto, unfolding(crate::specs::Grammar::reads))]
pub(crate) fn layer_word(words: &mut Words) -> Result<Layer, Fault>
    ensures opens { Opens layer_next grammar.LayerKind result words.old words.new }
    ensures falls { length words.new ≤ length words.old }
{
    Ok(keywords::layer_word(next_word(words)?)?)
}

// Reads the first word of a merge.
#[tactic(auto, unfolding(crate::specs::Grammar::reads))]
pub(crate) fn merge_word(words: &mut Words) -> Result<MergeWord, Fault>
    ensures opens { Opens merge_next grammar.Merge result words.old words.new }
    ensures falls { length words.new ≤ length words.old }
{
    Ok(keywords::merge_word(next_word(words)?)?)
}

// Reads the ops that a rule speaks of.
#[tactic(auto, unfolding(crate::specs::Grammar::reads))]
pub(crate) fn op_word(words: &mut Words) -> Result<OpMatch, Fault>
    ensures opens { Opens op_next grammar.Op result words.old words.new }
    ensures falls { length words.new ≤ length words.old }
{
    Ok(keywords::op_word(next_word(words)?)?)
}

// Reads the handler that a rule speaks of.
#[tactic(auto, unfolding(crate::specs::Grammar::reads))]
pub(crate) fn handler_word(words: &mut Words) -> Result<Option<u16>, Fault>
    ensures opens { Opens handler_next grammar.HandlerOrAny result words.old words.new }
    ensures falls { length words.new ≤ length words.old }
{
    Ok(keywords::handler_word(next_word(words)?)?)
}

// Reads whether a rule speaks of own bindings only.
#[tactic(auto, unfolding(crate::specs::Grammar::reads))]
pub(crate) fn own_word(words: &mut Words) -> Result<bool, Fault>
    ensures opens { Opens own_next grammar.Own result words.old words.new }
    ensures falls { length words.new ≤ length words.old }
{
    Ok(keywords::own_word(next_word(words)?)?)
}

// Reads the first word of an effect, in a script of this version.
#[tactic(auto, unfolding(crate::specs::Grammar::reads))]
pub(crate) fn effect_word(words: &mut Words, version: u8) -> Result<EffectWord, Fault>
    ensures opens { Opens effect_next (grammar.Effect version) result words.old words.new }
    ensures falls { length words.new ≤ length words.old }
{
    Ok(keywords::effect_word(next_word(words)?, version)?)
}

// Reads the place that a rule forces.
#[tactic(auto, unfolding(crate::specs::Grammar::reads))]
pub(crate) fn forced_word(words: &mut Words) -> Result<Forced, Fault>
    ensures opens { Opens forced_next grammar.ForcedPlace result words.old words.new }
    ensures falls { length words.new ≤ length words.old }
{
    Ok(keywords::forced_word(next_word(words)?)?)
}

// Reads whether a rule forces asynchronous running.
#[tactic(auto, unfolding(crate::specs::Grammar::reads))]
pub(crate) fn apart_word(words: &mut Words) -> Result<bool, Fault>
    ensures opens { Opens apart_next grammar.ForcedMode result words.old words.new }
    ensures falls { length words.new ≤ length words.old }
{
    Ok(keywords::apart_word(next_word(words)?)?)
}

// Reads the first word of a place that may be before or after another binding.
#[tactic(auto, unfolding(crate::specs::Grammar::reads))]
pub(crate) fn spot_word(words: &mut Words) -> Result<SpotWord, Fault>
    ensures opens { Opens spot_next grammar.Spot result words.old words.new }
    ensures falls { length words.new ≤ length words.old }
{
    Ok(keywords::spot_word(next_word(words)?)?)
}

// Reads a place apart from other bindings.
#[tactic(auto, unfolding(crate::specs::Grammar::reads))]
pub(crate) fn place_word(words: &mut Words) -> Result<Place, Fault>
    ensures opens { Opens place_next grammar.Place result words.old words.new }
    ensures falls { length words.new ≤ length words.old }
{
    Ok(keywords::place_word(next_word(words)?)?)
}

// Reads the mode of a binding.
#[tactic(auto, unfolding(crate::specs::Grammar::reads))]
pub(crate) fn mode_word(words: &mut Words) -> Result<Mode, Fault>
    ensures opens { Opens mode_next grammar.Mode result words.old words.new }
    ensures falls { length words.new ≤ length words.old }
{
    Ok(keywords::mode_word(next_word(words)?)?)
}

// Reads the first word of a deed, in a script of this version.
#[tactic(auto, unfolding(crate::specs::Grammar::reads))]
pub(crate) fn deed_word(words: &mut Words, version: u8) -> Result<DeedWord, Fault>
    ensures opens { Opens (deed_next version) (grammar.Deed version) result words.old words.new }
    ensures falls { length words.new ≤ length words.old }
{
    Ok(keywords::deed_word(next_word(words)?, version)?)
}

// Reads just this word.
#[tactic(auto, unfolding(crate::specs::Grammar::reads, crate::specs::Grammar::accepts))]
pub(crate) fn exactly(words: &mut Words, wanted: &[u8]) -> Result<(), Fault>
    ensures opens { Opens (λ _. (Fixed wanted.now, [])) (grammar.Exactly wanted.now) result
        words.old words.new }
    ensures falls { length words.new ≤ length words.old }
{
    if next_word(words)? == wanted {
        Ok(())
    } else {
        Err(Fault::Bad(Cause::Word))
    }
}
