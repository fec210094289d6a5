//! The deeds of lanes.

ghost use Rattle.std.specs.Prelude.{◌≡◌, ◌≤◌, ◌∷◌, [], map, codes, IfOk, IsTrue};
ghost use Rattle.spin_word.specs.Commands.{bindings_or_none};
ghost use Rattle.spin_grammar.specs.Grammar as grammar;
ghost use Rattle.spin_grammar.specs.Grammar.{Number, Numeral, Values, Bindings, spot_wants};
ghost use Rattle.spin_grammar.specs.Grammar.{last_target};
ghost use Rattle.spin_grammar.specs.Forms.{value_atom, counted_form, spot_form, task_form, padded};
ghost use Rattle.spin_grammar.specs.Tasks.{Asks, IsValidOn};
ghost use Rattle.spin_grammar.specs.Inner.Reading.{Gives, GivesSome, GivesBehind};
ghost use Rattle.spin_grammar.specs.Inner.Keywords.{deed_next};
ghost use Rattle.spin_grammar.specs.Inner.Spots.{IsSpot, IsValidSpot, GivesValue};
ghost use Rattle.spin_grammar.specs.declared.keywords.DeedWord.TheVariants as deed;

use crate::cause::Cause;
use crate::fault::Fault;
use crate::keywords::{DeedWord, SpotWord};
use crate::limits::{
    LAST_EVENT, LAST_GUARD, LAST_HANDLER, LAST_MODULE, LAST_PLACE, LAST_TARGET, MAX_PACKETS,
};
use crate::names::hex_bytes;
use crate::number::number_of;
use crate::tokens::{
    binding_from, bindings_count, deed_word, exactly, mode_word, number_from, place_word, spot_word,
};
use crate::words::Words;
use spin_values::{Args, MAX_PARAMS, Value};
use spin_word::{Command, Deed, NO_BINDING, NO_BINDINGS, Op, Place, Work};
use std::alloc::Global;

// The greatest number of a binding that a command of this version may have as its target.
fn last_target(version: u8) -> u64
    ensures last { result ≡ last_target version }
    ensures few { result ≤ LAST_PLACE }
{
    if version == 3 {
        LAST_PLACE
    } else {
        LAST_TARGET
    }
}

// Reads up to four rising numbers of bindings behind their count.
fn read_bindings(words: &mut Words) -> Result<[u16; 4], Fault>
    ensures gives { GivesSome (λ numbers ns. numbers ≡ padded ns) counted_form (Bindings ∷ [])
        result words.old words.new }
    ensures valid { IfOk result (λ numbers. IsTrue (bindings_or_none numbers)) }
{
    let count = bindings_count(words)?;
    let mut numbers = NO_BINDINGS;
    let mut low = 0;
    for at in 0..count {
        let number = binding_from(words, low)?;
        numbers[at as usize] = number as u16;
        low = number + 1;
    }
    Ok(numbers)
}

/// Where a binding goes: its place, and the bindings before which and after which it goes.
#[derive(Clone, Copy, Debug)]
pub struct Constraints {
    place: Place,
    before: [u16; 4],
    after: [u16; 4],
}

// Reads a place that may be before or after one other binding.
#[tactic(auto, using(crate::proofs::ReadingParts::failing))]
fn read_spot(words: &mut Words) -> Result<Constraints, Fault>
    ensures gives { GivesSome IsSpot spot_form (grammar.Spot ∷ []) result words.old words.new }
    ensures valid { IfOk result IsValidSpot }
{
    match spot_word(words)? {
        SpotWord::At(place) => Ok(Constraints {
            place,
            before: NO_BINDINGS,
            after: NO_BINDINGS,
        }),
        SpotWord::Before => {
            let number = number_from(words, 0, LAST_TARGET)? as u16;
            Ok(Constraints {
                place: Place::Free,
                before: [number, NO_BINDING, NO_BINDING, NO_BINDING],
                after: NO_BINDINGS,
            })
        }
        SpotWord::After => {
            let number = number_from(words, 0, LAST_TARGET)? as u16;
            Ok(Constraints {
                place: Place::Free,
                before: NO_BINDINGS,
                after: [number, NO_BINDING, NO_BINDING, NO_BINDING],
            })
        }
    }
}

// Reads a place, and the bindings before which and after which it is.
#[tactic(auto, using(crate::proofs::ReadingParts::failing))]
fn read_wide_spot(words: &mut Words) -> Result<Constraints, Fault>
    ensures gives { GivesSome IsSpot spot_form (grammar.Place ∷ grammar.Exactly (codes "before")
        ∷ Bindings ∷ grammar.Exactly (codes "after") ∷ Bindings ∷ []) result words.old words.new }
    ensures valid { IfOk result IsValidSpot }
{
    let place = place_word(words)?;
    exactly(words, b"before")?;
    let before = read_bindings(words)?;
    exactly(words, b"after")?;
    let after = read_bindings(words)?;
    Ok(Constraints {
        place,
        before,
        after,
    })
}

// Reads where a binding goes, in a script of this version.
fn read_around(words: &mut Words, version: u8) -> Result<Constraints, Fault>
    ensures gives { GivesSome IsSpot spot_form (spot_wants version) result words.old words.new }
    ensures valid { IfOk result IsValidSpot }
{
    if version == 3 {
        read_wide_spot(words)
    } else {
        read_spot(words)
    }
}

// Reads what follows the word `install`.
#[tactic(auto, using(crate::proofs::ReadingParts::failing))]
fn read_install(words: &mut Words, version: u8, lane: u8) -> Result<Work, Fault>
    ensures gives { GivesBehind (Asks lane) task_form (deed_next version deed.Install) result
        words.old words.new }
    ensures valid { IfOk result (IsValidOn lane) }
{
    let event = number_from(words, 0, LAST_EVENT)? as u8;
    let requester = number_from(words, 0, LAST_MODULE)? as u8;
    let handler = number_from(words, 0, LAST_HANDLER)? as u16;
    let guard = number_from(words, 0, LAST_GUARD)? as u16;
    let around = read_around(words, version)?;
    let mode = mode_word(words)?;
    Ok(Work::Command(Command {
        handler,
        guard,
        place: around.place,
        before: around.before,
        after: around.after,
        mode,
        ..Command::bare(Op::Install, lane, event, requester)
    }))
}

// Reads what follows the word `remove`.
#[tactic(auto, using(crate::proofs::ReadingParts::failing))]
fn read_remove(words: &mut Words, version: u8, lane: u8) -> Result<Work, Fault>
    ensures gives { GivesBehind (Asks lane) task_form (deed_next version deed.Remove) result
        words.old words.new }
    ensures valid { IfOk result (IsValidOn lane) }
{
    let event = number_from(words, 0, LAST_EVENT)? as u8;
    let requester = number_from(words, 0, LAST_MODULE)? as u8;
    let mut command = Command::bare(Op::Remove, lane, event, requester);
    command.target = number_from(words, 0, last_target(version))? as u16;
    Ok(Work::Command(command))
}

// Reads what follows the word `replace`.
#[tactic(auto, using(crate::proofs::ReadingParts::failing))]
fn read_replace(words: &mut Words, version: u8, lane: u8) -> Result<Work, Fault>
    ensures gives { GivesBehind (Asks lane) task_form (deed_next version deed.Replace) result
        words.old words.new }
    ensures valid { IfOk result (IsValidOn lane) }
{
    let event = number_from(words, 0, LAST_EVENT)? as u8;
    let requester = number_from(words, 0, LAST_MODULE)? as u8;
    let mut command = Command::bare(Op::Replace, lane, event, requester);
    command.target = number_from(words, 0, last_target(version))? as u16;
    command.handler = number_from(words, 0, LAST_HANDLER)? as u16;
    command.guard = number_from(words, 0, LAST_GUARD)? as u16;
    Ok(Work::Command(command))
}

// Reads what follows the word `default`.
#[tactic(auto, using(crate::proofs::ReadingParts::failing))]
fn read_default(words: &mut Words, version: u8, lane: u8) -> Result<Work, Fault>
    ensures gives { GivesBehind (Asks lane) task_form (deed_next version deed.Default) result
        words.old words.new }
    ensures valid { IfOk result (IsValidOn lane) }
{
    let event = number_from(words, 0, LAST_EVENT)? as u8;
    let requester = number_from(words, 0, LAST_MODULE)? as u8;
    let mut command = Command::bare(Op::Default, lane, event, requester);
    command.handler = number_from(words, 0, LAST_HANDLER)? as u16;
    Ok(Work::Command(command))
}

// Reads what follows the word `nodefault`.
#[tactic(auto, using(crate::proofs::ReadingParts::failing))]
fn read_nodefault(words: &mut Words, version: u8, lane: u8) -> Result<Work, Fault>
    ensures gives { GivesBehind (Asks lane) task_form (deed_next version deed.NoDefault) result
        words.old words.new }
    ensures valid { IfOk result (IsValidOn lane) }
{
    let event = number_from(words, 0, LAST_EVENT)? as u8;
    let requester = number_from(words, 0, LAST_MODULE)? as u8;
    Ok(Work::Command(Command::bare(Op::NoDefault, lane, event, requester)))
}

// The value that a word says: bytes where it begins with `x`, else a number.
#[tactic(auto, unfolding(crate::specs::Grammar::accepts))]
fn value(alloc: Global, word: &[u8]) -> Result<Value, Fault>
    ensures { GivesValue word.now result }
{
    if !word.is_empty() && word[0] == b'x' {
        return match hex_bytes(alloc, &word[1..])? {
            Some(bytes) => Ok(Value::Bytes(bytes)),
            None => Err(Fault::Bad(Cause::Bytes)),
        };
    }
    match number_of(word) {
        Some(number) => Ok(Value::Word(number)),
        None => Err(Fault::Bad(Cause::Number)),
    }
}

// Reads up to eight values, and the line's end.
fn read_values(alloc: Global, words: &mut Words) -> Result<Args, Fault>
    ensures { Gives (λ vs. map value_atom vs) (Values MAX_PARAMS ∷ []) result words.old words.new }
{
    let mut values = Args::with_capacity(alloc, 1)?;
    for _ in 0..MAX_PARAMS {
        let Some(word) = words.next() else {
            values.shrink_to_fit();
            return Ok(values);
        };
        values.push(value(alloc, word)?)?;
    }
    match words.next() {
        None => Ok(values),
        Some(_) => Err(Fault::Bad(Cause::End)),
    }
}

// Reads what follows the word `raise` or `later`.
#[tactic(auto, using(crate::proofs::ReadingParts::failing))]
fn read_raise(alloc: Global, words: &mut Words) -> Result<(u8, Args), Fault>
    ensures { Gives (λ r. Numeral r.0 ∷ map value_atom r.1)
        (Number 0 LAST_EVENT ∷ Values MAX_PARAMS ∷ []) result words.old words.new }
{
    let event = number_from(words, 0, LAST_EVENT)? as u8;
    let args = read_values(alloc, words)?;
    Ok((event, args))
}

// Reads what follows the word `packet`.
#[tactic(auto, using(crate::proofs::ReadingParts::failing))]
fn read_packet(words: &mut Words) -> Result<(u8, u32), Fault>
    ensures { Gives (λ p. Numeral p.0 ∷ Numeral p.1 ∷ [])
        (Number 0 LAST_EVENT ∷ Number 1 MAX_PACKETS ∷ []) result words.old words.new }
{
    let event = number_from(words, 0, LAST_EVENT)? as u8;
    let count = number_from(words, 1, MAX_PACKETS)? as u32;
    Ok((event, count))
}

// Reads the deed of a lane, in a script of this version.
#[tactic(auto, using(crate::proofs::ReadingParts::failing))]
pub(crate) fn read_work(
    alloc: Global,
    words: &mut Words,
    version: u8,
    lane: u8,
) -> Result<Work, Fault>
    ensures gives { GivesSome (Asks lane) task_form (grammar.Deed version ∷ []) result words.old
        words.new }
    ensures valid { IfOk result (IsValidOn lane) }
{
    match deed_word(words, version)? {
        DeedWord::Install => read_install(words, version, lane),
        DeedWord::Remove => read_remove(words, version, lane),
        DeedWord::Replace => read_replace(words, version, lane),
        DeedWord::Default => read_default(words, version, lane),
        DeedWord::NoDefault => read_nodefault(words, version, lane),
        DeedWord::Raise => {
            let (event, args) = read_raise(alloc, words)?;
            Ok(Work::Deed(Deed::Raise { event, args }))
        }
        DeedWord::Later => {
            let (event, args) = read_raise(alloc, words)?;
            Ok(Work::Deed(Deed::Later { event, args }))
        }
        DeedWord::Packet => {
            let (event, count) = read_packet(words)?;
            Ok(Work::Packet { event, count })
        }
    }
}
