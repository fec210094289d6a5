//! The words of a line.

ghost use Rattle.std.specs.Prelude.{◌≡◌, ◌+◌, ◌<◌, ◌≤◌, ◌==◌, ◌||◌, true, false, length};
ghost use Rattle.std.specs.Prelude.{slice_index, List, ℕ, [], ◌∷◌, MatchOption, MatchResult};
ghost use Rattle.spin_grammar.specs.Words.{is_blank, words};
ghost use Rattle.spin_grammar.specs.declared.cause.Cause.TheVariants.{End};
ghost use Rattle.spin_grammar.specs.declared.fault.Fault.TheVariants.{Bad};

use crate::cause::Cause;
use crate::fault::Fault;
use std::marker::Model;

fn is_blank(byte: u8) -> bool
    ensures { result ≡ is_blank byte }
{
    byte == b' ' || byte == b'\t'
}

// The line from its first word on.
#[tactic(auto, using(crate::proofs::WordLemmas::words_blank))]
fn without_blanks(line: &[u8]) -> &[u8]
    ensures same { words result.now ≡ words line.now }
    ensures front { 0 < length result.now → is_blank (slice_index result.now 0) ≡ false }
{
    let mut rest = line;
    while let Some((first, after)) = rest.split_first() {
        if !is_blank(*first) {
            break;
        }
        rest = after;
    }
    rest
}

// How many bytes stand before the first blank.
fn word_len(line: &[u8]) -> usize
    ensures within { result ≤ length line.now }
    ensures before { (k : ℕ) → k < result → is_blank (slice_index line.now k) ≡ false }
    ensures found { result < length line.now → is_blank (slice_index line.now result) ≡ true }
{
    for (i, byte) in line.iter().enumerate() {
        if is_blank(*byte) {
            return i;
        }
    }
    line.len()
}

/// The words of a line that are still to be read.
#[derive(Drop, Debug)]
pub struct Words<'a> {
    rest: &'a [u8],
}

impl<'a> Model for Words<'a> {
    ghost Value = { List (List ℕ) };

    ghost view = { λ s. words s.rest.now };
}

impl<'a> Words<'a> {
    /// The words of the line, of which none is taken yet.
    #[tactic(auto, using(crate::proofs::LineEnds::words_count))]
    pub fn new(line: &'a [u8]) -> Words<'a>
        ensures words { result ≡ words line.now }
        ensures room { length result ≤ length line.now + 1 }
    {
        Words { rest: line }
    }

    /// The next word.
    pub fn next(&mut self) -> Option<&'a [u8]>
        ensures { MatchOption result ((self.old ≡ []) × (self.new ≡ []))
            (λ w. self.old ≡ w.now ∷ self.new) }
    {
        let line = without_blanks(self.rest);
        self.rest = line;
        if line.is_empty() {
            return None;
        }
        let (word, rest) = line.split_at(word_len(line));
        self.rest = rest;
        Some(word)
    }
}

// The next word, where the line hasn't ended.
pub(crate) fn next_word<'a>(words: &mut Words<'a>) -> Result<&'a [u8], Fault>
    ensures { MatchResult result (λ w. words.old ≡ w.now ∷ words.new)
        (λ f. (f ≡ Bad End) × (words.old ≡ []) × (words.new ≡ [])) }
{
    match words.next() {
        Some(word) => Ok(word),
        None => Err(Fault::Bad(Cause::End)),
    }
}
