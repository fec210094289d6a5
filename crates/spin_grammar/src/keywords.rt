//! The words that begin something, one by one: a table for each place says what its words stand for,
//! and a function finds it.

ghost use Rattle.std.specs.Prelude.{◌≡◌, map};
ghost use Rattle.spin_grammar.specs.Grammar as grammar;
ghost use Rattle.spin_grammar.specs.Grammar.{accepts};
ghost use Rattle.spin_grammar.specs.Inner.Keywords.{known, step_of, expr_next, test_next, part_next};
ghost use Rattle.spin_grammar.specs.Inner.Keywords.{step_next, layer_next, merge_next, op_next};
ghost use Rattle.spin_grammar.specs.Inner.Keywords.{handler_next, own_next, effect_next, forced_next};
ghost use Rattle.spin_grammar.specs.Inner.Keywords.{apart_next, spot_next, place_next, mode_next};
ghost use Rattle.spin_grammar.specs.Inner.Keywords.{deed_next};
ghost use Rattle.spin_grammar.specs.Lookup.{look_up};

use crate::cause::Cause;
use crate::limits::LAST_HANDLER;
use crate::lookup::look_up;
use crate::number::number_of;
use spin_code::{Cmp, Layer};
use spin_policy::{Forced, OpMatch};
use spin_word::{Mode, Op, Place};

/// What the first word of an expression says.
#[derive(Clone, Copy)]
pub enum ExprWord {
    /// This number.
    Const(u64),
    /// The argument of this number.
    Arg(u8),
    /// A field, whose argument, offset and width follow.
    Field,
    /// An operator, whose two expressions follow.
    Binary(Operator),
}

/// What joins two expressions.
#[derive(Clone, Copy)]
pub enum Operator {
    /// The sum.
    Plus,
    /// The bits that are set in both.
    And,
    /// The bits that are set in at least one.
    Or,
}

/// What the first word of a test says.
#[derive(Clone, Copy)]
pub enum TestWord {
    /// It always holds.
    True,
    /// A comparison, whose two expressions follow.
    Compare(Cmp),
    /// An argument has so many bytes; both numbers follow.
    Has,
    /// The test that follows doesn't hold.
    Not,
    /// Of the two tests that follow, both hold or at least one does.
    Pair(Connective),
}

/// What joins two tests.
#[derive(Clone, Copy)]
pub enum Connective {
    /// Both hold.
    All,
    /// At least one holds.
    Any,
}

/// What the first word of a part says.
#[derive(Clone, Copy)]
pub enum PartWord {
    /// A word, whose expression follows.
    Word,
    /// The bytes of an argument from a place on; both numbers follow.
    Bytes,
}

/// What the first word of a step says.
#[derive(Clone, Copy)]
pub enum StepWord {
    /// Sets an argument.
    Set,
    /// Sends bytes of an argument.
    Send,
    /// Gives a result.
    Result,
    /// Raises an event upwards.
    Up,
    /// Reads headers.
    Layer,
}

/// What the first word of a merge says.
#[derive(Clone, Copy)]
pub enum MergeWord {
    /// The last result stands.
    Last,
    /// Results are folded by the expression that follows.
    Fold,
}

/// What the first word of an effect says.
#[derive(Clone, Copy)]
pub enum EffectWord {
    /// It allows.
    Allow,
    /// It denies.
    Deny,
    /// It denies from a number of bindings on.
    Quota,
    /// It imposes guards.
    Impose,
    /// It imposes guards, a place and a mode.
    Force,
}

/// What the first word of a binding's place says, where it may be before or after one other.
#[derive(Clone, Copy)]
pub enum SpotWord {
    /// It is this place.
    At(Place),
    /// It is before the binding whose number follows.
    Before,
    /// It is after the binding whose number follows.
    After,
}

/// What the first word of a deed says.
#[derive(Clone, Copy)]
pub enum DeedWord {
    /// Installs a binding.
    Install,
    /// Removes a binding.
    Remove,
    /// Gives a binding another handler and guard.
    Replace,
    /// Sets the default.
    Default,
    /// Takes the default away.
    NoDefault,
    /// Raises an event.
    Raise,
    /// Raises an event as a job.
    Later,
    /// Raises an event with the next records.
    Packet,
}

// What a word stands for, by the first row of a table that has the word.
fn meaning<A: Copy>(word: &[u8], rows: &[(&[u8], A)]) -> Result<A, Cause>
    ensures { result ≡ known (look_up word.now (map (λ row. (row.0.now, row.1)) rows.now)) }
{
    look_up(word, rows).ok_or(Cause::Word)
}

// The first word of an expression.
#[tactic(auto, unfolding(crate::specs::Grammar::accepts))]
pub(crate) fn expr_word(word: &[u8]) -> Result<ExprWord, Cause>
    ensures { step_of expr_next result ≡ accepts grammar.Expression word.now }
{
    match word {
        [b'0'..=b'9', ..] => match number_of(word) {
            Some(number) => Ok(ExprWord::Const(number)),
            None => Err(Cause::Number),
        },
        [b'a', digit @ b'0'..=b'7'] => Ok(ExprWord::Arg(*digit - b'0')),
        b"f" => Ok(ExprWord::Field),
        b"+" => Ok(ExprWord::Binary(Operator::Plus)),
        b"&" => Ok(ExprWord::Binary(Operator::And)),
        b"|" => Ok(ExprWord::Binary(Operator::Or)),
        _ => Err(Cause::Word),
    }
}

// The first words of tests.
const TESTS: [(&[u8], TestWord); 9] = [
    (b"true", TestWord::True),
    (b"==", TestWord::Compare(Cmp::Eq)),
    (b"!=", TestWord::Compare(Cmp::Ne)),
    (b"<", TestWord::Compare(Cmp::Lt)),
    (b"<=", TestWord::Compare(Cmp::Le)),
    (b"has", TestWord::Has),
    (b"not", TestWord::Not),
    (b"all", TestWord::Pair(Connective::All)),
    (b"any", TestWord::Pair(Connective::Any)),
];

// The first word of a test.
#[tactic(auto, unfolding(crate::specs::Grammar::accepts))]
pub(crate) fn test_word(word: &[u8]) -> Result<TestWord, Cause>
    ensures { step_of test_next result ≡ accepts grammar.Test word.now }
{
    meaning(word, TESTS.as_slice())
}

// The first words of parts.
const PARTS: [(&[u8], PartWord); 2] = [(b"w", PartWord::Word), (b"b", PartWord::Bytes)];

// The first word of a part.
#[tactic(auto, unfolding(crate::specs::Grammar::accepts))]
pub(crate) fn part_word(word: &[u8]) -> Result<PartWord, Cause>
    ensures { step_of part_next result ≡ accepts grammar.Part word.now }
{
    meaning(word, PARTS.as_slice())
}

// The first words of steps.
const STEPS: [(&[u8], StepWord); 5] = [
    (b"set", StepWord::Set),
    (b"send", StepWord::Send),
    (b"result", StepWord::Result),
    (b"up", StepWord::Up),
    (b"layer", StepWord::Layer),
];

// The first word of a step.
#[tactic(auto, unfolding(crate::specs::Grammar::accepts))]
pub(crate) fn step_word(word: &[u8]) -> Result<StepWord, Cause>
    ensures { step_of step_next result ≡ accepts grammar.Steps word.now }
{
    meaning(word, STEPS.as_slice())
}

// The headers that a layer step may read.
const LAYERS: [(&[u8], Layer); 2] = [(b"ipv4", Layer::Ipv4), (b"udp", Layer::Udp)];

// The headers that a layer step reads.
#[tactic(auto, unfolding(crate::specs::Grammar::accepts))]
pub(crate) fn layer_word(word: &[u8]) -> Result<Layer, Cause>
    ensures { step_of layer_next result ≡ accepts grammar.LayerKind word.now }
{
    meaning(word, LAYERS.as_slice())
}

// The first words of merges.
const MERGES: [(&[u8], MergeWord); 2] = [(b"last", MergeWord::Last), (b"fold", MergeWord::Fold)];

// The first word of a merge.
#[tactic(auto, unfolding(crate::specs::Grammar::accepts))]
pub(crate) fn merge_word(word: &[u8]) -> Result<MergeWord, Cause>
    ensures { step_of merge_next result ≡ accepts grammar.Merge word.now }
{
    meaning(word, MERGES.as_slice())
}

// The ops that a rule may speak of.
const OPS: [(&[u8], OpMatch); 6] = [
    (b"install", OpMatch::One(Op::Install)),
    (b"remove", OpMatch::One(Op::Remove)),
    (b"replace", OpMatch::One(Op::Replace)),
    (b"default", OpMatch::One(Op::Default)),
    (b"nodefault", OpMatch::One(Op::NoDefault)),
    (b"any", OpMatch::Any),
];

// The ops that a rule speaks of.
#[tactic(auto, unfolding(crate::specs::Grammar::accepts))]
pub(crate) fn op_word(word: &[u8]) -> Result<OpMatch, Cause>
    ensures { step_of op_next result ≡ accepts grammar.Op word.now }
{
    meaning(word, OPS.as_slice())
}

// The handler that a rule speaks of.
#[tactic(auto, unfolding(crate::specs::Grammar::accepts))]
pub(crate) fn handler_word(word: &[u8]) -> Result<Option<u16>, Cause>
    ensures { step_of handler_next result ≡ accepts grammar.HandlerOrAny word.now }
{
    match word {
        [b'0'..=b'9', ..] => match number_of(word) {
            Some(number) if number >= 1 && number <= LAST_HANDLER => Ok(Some(number as u16)),
            _ => Err(Cause::Number),
        },
        b"any" => Ok(None),
        _ => Err(Cause::Word),
    }
}

// Whether a rule may speak of own bindings only.
const OWN: [(&[u8], bool); 2] = [(b"own", true), (b"all", false)];

// Whether a rule speaks of own bindings only.
#[tactic(auto, unfolding(crate::specs::Grammar::accepts))]
pub(crate) fn own_word(word: &[u8]) -> Result<bool, Cause>
    ensures { step_of own_next result ≡ accepts grammar.Own word.now }
{
    meaning(word, OWN.as_slice())
}

// The first words of effects.
const EFFECTS: [(&[u8], EffectWord); 5] = [
    (b"allow", EffectWord::Allow),
    (b"deny", EffectWord::Deny),
    (b"quota", EffectWord::Quota),
    (b"impose", EffectWord::Impose),
    (b"force", EffectWord::Force),
];

// The first word of an effect, in a script of this version.
#[tactic(auto, unfolding(crate::specs::Grammar::accepts))]
pub(crate) fn effect_word(word: &[u8], version: u8) -> Result<EffectWord, Cause>
    ensures { step_of effect_next result ≡ accepts (grammar.Effect version) word.now }
{
    match meaning(word, EFFECTS.as_slice())? {
        EffectWord::Force if version < 2 => Err(Cause::Word),
        effect => Ok(effect),
    }
}

// The places that a rule may force.
const FORCED_PLACES: [(&[u8], Forced); 3] = [
    (b"keep", Forced::Keep),
    (b"first", Forced::First),
    (b"last", Forced::Last),
];

// The place that a rule forces.
#[tactic(auto, unfolding(crate::specs::Grammar::accepts))]
pub(crate) fn forced_word(word: &[u8]) -> Result<Forced, Cause>
    ensures { step_of forced_next result ≡ accepts grammar.ForcedPlace word.now }
{
    meaning(word, FORCED_PLACES.as_slice())
}

// Whether a rule may force asynchronous running.
const FORCED_MODES: [(&[u8], bool); 2] = [(b"keep", false), (b"async", true)];

// Whether a rule forces asynchronous running.
#[tactic(auto, unfolding(crate::specs::Grammar::accepts))]
pub(crate) fn apart_word(word: &[u8]) -> Result<bool, Cause>
    ensures { step_of apart_next result ≡ accepts grammar.ForcedMode word.now }
{
    meaning(word, FORCED_MODES.as_slice())
}

// The first words of places that may be before or after another binding.
const SPOTS: [(&[u8], SpotWord); 5] = [
    (b"free", SpotWord::At(Place::Free)),
    (b"first", SpotWord::At(Place::First)),
    (b"last", SpotWord::At(Place::Last)),
    (b"before", SpotWord::Before),
    (b"after", SpotWord::After),
];

// The first word of a place that may be before or after another binding.
#[tactic(auto, unfolding(crate::specs::Grammar::accepts))]
pub(crate) fn spot_word(word: &[u8]) -> Result<SpotWord, Cause>
    ensures { step_of spot_next result ≡ accepts grammar.Spot word.now }
{
    meaning(word, SPOTS.as_slice())
}

// The places apart from other bindings.
const PLACES: [(&[u8], Place); 3] = [
    (b"free", Place::Free),
    (b"first", Place::First),
    (b"last", Place::Last),
];

// A place apart from other bindings.
#[tactic(auto, unfolding(crate::specs::Grammar::accepts))]
pub(crate) fn place_word(word: &[u8]) -> Result<Place, Cause>
    ensures { step_of place_next result ≡ accepts grammar.Place word.now }
{
    meaning(word, PLACES.as_slice())
}

// The modes of bindings.
const MODES: [(&[u8], Mode); 3] = [
    (b"plain", Mode::Plain),
    (b"filter", Mode::Filter),
    (b"async", Mode::Async),
];

// The mode of a binding.
#[tactic(auto, unfolding(crate::specs::Grammar::accepts))]
pub(crate) fn mode_word(word: &[u8]) -> Result<Mode, Cause>
    ensures { step_of mode_next result ≡ accepts grammar.Mode word.now }
{
    meaning(word, MODES.as_slice())
}

// The first words of deeds. Most deeds of long scripts are raises, so their word stands first.
const DEEDS: [(&[u8], DeedWord); 8] = [
    (b"raise", DeedWord::Raise),
    (b"install", DeedWord::Install),
    (b"remove", DeedWord::Remove),
    (b"replace", DeedWord::Replace),
    (b"default", DeedWord::Default),
    (b"nodefault", DeedWord::NoDefault),
    (b"later", DeedWord::Later),
    (b"packet", DeedWord::Packet),
];

// The first word of a deed, in a script of this version.
#[tactic(auto, unfolding(crate::specs::Grammar::accepts))]
pub(crate) fn deed_word(word: &[u8], version: u8) -> Result<DeedWord, Cause>
    ensures { step_of (deed_next version) result ≡ accepts (grammar.Deed version) word.now }
{
    meaning(word, DEEDS.as_slice())
}
