//! Names, signatures and bytes.

ghost use Rattle.std.specs.Prelude.{◌≡◌, ◌∷◌, ◌≤◌, [], length, IfOk, MatchOption, if◌then◌else◌};
ghost use Rattle.std.specs.Prelude.{Some, None};
ghost use Rattle.std.specs.List.{list_all};
ghost use Rattle.spin_grammar.specs.Grammar as grammar;
ghost use Rattle.spin_grammar.specs.Grammar.{Called, Typed};
ghost use Rattle.spin_grammar.specs.Spelling.{is_name_byte, is_name, is_letter, param_of};
ghost use Rattle.spin_grammar.specs.Spelling.{params_of, as_type, signature, guard_signature};
ghost use Rattle.spin_grammar.specs.Spelling.{hex_bytes};
ghost use Rattle.spin_grammar.specs.Inner.Reading.{Gives, Opens};
ghost use Rattle.spin_grammar.specs.Inner.Keywords.{handler_body_next, guard_body_next};

use crate::cause::Cause;
use crate::fault::Fault;
use crate::limits::MAX_NAME;
use crate::number::digit;
use crate::words::{Words, next_word};
use spin_values::{EventType, Kind, MAX_PARAMS, NoMemory, Octets, Param, Params, Text};
use std::alloc::Global;

fn is_name_byte(byte: u8) -> bool
    ensures { result ≡ is_name_byte byte }
{
    digit(byte) < 36 || byte == b'_' || byte == b'.'
}

fn has_name_bytes(word: &[u8]) -> bool
    ensures { result ≡ list_all is_name_byte word.now }
{
    word.iter().all(|byte| is_name_byte(*byte))
}

fn is_name(word: &[u8]) -> bool
    ensures { result ≡ is_name word.now }
{
    !word.is_empty() && word.len() <= MAX_NAME && has_name_bytes(word)
}

// Reads a name: 1 to [`MAX_NAME`] letters, digits, underscores and dots.
#[tactic(auto, unfolding(crate::specs::Grammar::reads, crate::specs::Grammar::accepts))]
pub(crate) fn read_name(alloc: Global, words: &mut Words) -> Result<Text, Fault>
    ensures gives { Gives (λ name. Called name ∷ []) (grammar.Name ∷ [])
        result words.old words.new }
    ensures falls { length words.new ≤ length words.old }
{
    let word = next_word(words)?;
    if !is_name(word) {
        return Err(Fault::Bad(Cause::Name));
    }
    Ok(Text::from_bytes(alloc, word)?)
}

// The parameter that a letter stands for. The case is a mark of a var parameter only where
// `marks` is set.
fn param(letter: u8, marks: bool) -> Option<Param>
    ensures { result ≡ if is_letter letter then Some (param_of marks letter) else None }
{
    match letter {
        b'w' => Some(Param {
            kind: Kind::Word,
            var: false,
        }),
        b'b' => Some(Param {
            kind: Kind::Bytes,
            var: false,
        }),
        b'W' => Some(Param {
            kind: Kind::Word,
            var: marks,
        }),
        b'B' => Some(Param {
            kind: Kind::Bytes,
            var: marks,
        }),
        _ => None,
    }
}

// The parameters that a word stands for: a dash is none, and else there are up to [`MAX_PARAMS`]
// letters.
fn params(alloc: Global, word: &[u8], marks: bool) -> Result<Option<Params>, NoMemory>
    ensures { IfOk result (λ params. params ≡ params_of marks word.now) }
{
    let mut params = Params::new(alloc);
    if word == b"-".as_slice() {
        return Ok(Some(params));
    }
    if word.is_empty() || word.len() > MAX_PARAMS {
        return Ok(None);
    }
    for letter in word {
        let Some(param) = param(*letter, marks) else {
            return Ok(None);
        };
        params.push(param)?;
    }
    Ok(Some(params))
}

fn typed(params: Option<Params>, gives: bool) -> Option<EventType>
    ensures { result ≡ as_type gives params }
{
    match params {
        None => None,
        Some(params) => Some(EventType { params, gives }),
    }
}

// The signature that a word stands for, if it is one.
#[tactic(auto, unfolding(crate::specs::Spelling::signature))]
pub(crate) fn signature(alloc: Global, word: &[u8]) -> Result<Option<EventType>, NoMemory>
    ensures { IfOk result (λ sig. sig ≡ signature word.now) }
{
    if word.len() >= 2 {
        let (front, back) = word.split_at(word.len() - 2);
        if back == b":w".as_slice() {
            return Ok(typed(params(alloc, front, true)?, true));
        }
    }
    Ok(typed(params(alloc, word, true)?, false))
}

// The signature of a guard that a word stands for, if it is one. It gives no result, and the case
// doesn't matter.
#[tactic(auto, unfolding(crate::specs::Spelling::guard_signature))]
pub(crate) fn guard_signature(alloc: Global, word: &[u8]) -> Result<Option<EventType>, NoMemory>
    ensures { IfOk result (λ sig. sig ≡ guard_signature word.now) }
{
    if word.len() >= 2 {
        let (_, back) = word.split_at(word.len() - 2);
        if back == b":w".as_slice() {
            return Ok(None);
        }
    }
    Ok(typed(params(alloc, word, false)?, false))
}

// Reads a signature.
#[tactic(auto, unfolding(crate::specs::Grammar::reads, crate::specs::Grammar::accepts))]
pub(crate) fn read_signature(alloc: Global, words: &mut Words) -> Result<EventType, Fault>
    ensures gives { Gives (λ sig. Typed sig ∷ []) (grammar.Signature ∷ []) result words.old
        words.new }
    ensures falls { length words.new ≤ length words.old }
{
    let word = next_word(words)?;
    match signature(alloc, word)? {
        Some(sig) => Ok(sig),
        None => Err(Fault::Bad(Cause::Signature)),
    }
}

// Reads the first word of a handler's body: its signature, or `None` for the word `native`.
#[tactic(auto, unfolding(crate::specs::Grammar::reads, crate::specs::Grammar::accepts))]
pub(crate) fn handler_body(alloc: Global, words: &mut Words) -> Result<Option<EventType>, Fault>
    ensures opens { Opens handler_body_next grammar.HandlerBody result words.old words.new }
    ensures falls { length words.new ≤ length words.old }
{
    let word = next_word(words)?;
    if word == b"native".as_slice() {
        return Ok(None);
    }
    match signature(alloc, word)? {
        Some(sig) => Ok(Some(sig)),
        None => Err(Fault::Bad(Cause::Signature)),
    }
}

// Reads the first word of a guard's body: its signature, or `None` for the word `native`.
#[tactic(auto, unfolding(crate::specs::Grammar::reads, crate::specs::Grammar::accepts))]
pub(crate) fn guard_body(alloc: Global, words: &mut Words) -> Result<Option<EventType>, Fault>
    ensures opens { Opens guard_body_next grammar.GuardBody result words.old words.new }
    ensures falls { length words.new ≤ length words.old }
{
    let word = next_word(words)?;
    if word == b"native".as_slice() {
        return Ok(None);
    }
    match guard_signature(alloc, word)? {
        Some(sig) => Ok(Some(sig)),
        None => Err(Fault::Bad(Cause::Signature)),
    }
}

// The bytes that pairs of hexadecimal digits stand for, if they are that.
pub(crate) fn hex_bytes(alloc: Global, digits: &[u8]) -> Result<Option<Octets>, NoMemory>
    ensures { IfOk result (λ bytes. bytes ≡ hex_bytes digits.now) }
{
    let mut bytes = Octets::new(alloc);
    let mut rest = digits;
    while let Some((first, more)) = rest.split_first() {
        let Some((second, after)) = more.split_first() else {
            return Ok(None);
        };
        let high = digit(*first);
        let low = digit(*second);
        if high >= 16 || low >= 16 {
            return Ok(None);
        }
        bytes.push((16 * high + low) as u8)?;
        rest = after;
    }
    Ok(Some(bytes))
}
