//! Arguments, lists and texts: each call with ample memory.
//!
//! - `set ARGUMENTS VALUE`: what setting each argument and the one behind the last answers, whether a copy of before
//!   differs, and the first argument;
//! - `numbers LIST LIST LIST`: the second list and then the third behind the first, the greatest, and whether 4 is
//!   there;
//! - `texts BYTES BYTES`: the lengths of two texts, the first of which is a copy.

use crate::fault::Fault;
use crate::told::tell;
use crate::words::Words;
use spin_values::{Args, Numbers, Text, Texts, set};
use std::alloc::Global;

// What is tried.
#[derive(Clone, Copy)]
enum Kind {
    Set,
    Numbers,
    Texts,
}

const KINDS: [(&str, Kind); 3] = [
    ("set", Kind::Set),
    ("numbers", Kind::Numbers),
    ("texts", Kind::Texts),
];

pub(crate) fn answer(alloc: Global, words: &mut Words, out: &mut String) -> Result<(), Fault> {
    match words.one_of(&KINDS)? {
        Kind::Set => set_each(&mut words.args(alloc)?, words.u64()?, out),
        Kind::Numbers => numbers(alloc, words, out),
        Kind::Texts => texts(alloc, words, out),
    }
}

fn set_each(args: &mut Args, value: u64, out: &mut String) -> Result<(), Fault> {
    let copy = args.copy()?;
    for at in 0..=args.len() {
        let at = u8::try_from(at).or(Err(Fault::BadRow))?;
        tell(out, &set(args, at, value))?;
    }
    tell(out, &(copy != *args))?;
    tell(out, &args.take_first())
}

fn numbers(alloc: Global, words: &mut Words, out: &mut String) -> Result<(), Fault> {
    let mut numbers = Numbers::from_slice(alloc, words.numbers(alloc)?.as_slice())?;
    numbers.append(&mut words.numbers(alloc)?)?;
    numbers.extend_from_slice(words.numbers(alloc)?.as_slice())?;
    tell(out, &numbers.as_slice())?;
    tell(out, &numbers.iter().max())?;
    tell(out, &numbers.contains(&4))
}

// The text of these bytes, which are put one by one.
fn text_of(alloc: Global, bytes: &[u8]) -> Result<Text, Fault> {
    let mut text = Text::new(alloc);
    for byte in bytes {
        text.push(*byte)?;
    }
    Ok(text)
}

fn texts(alloc: Global, words: &mut Words, out: &mut String) -> Result<(), Fault> {
    let mut texts = Texts::new(alloc);
    let first = text_of(alloc, words.bytes(alloc)?.as_slice())?;
    texts.push(first.copy()?)?;
    texts.push(Text::from_bytes(alloc, words.bytes(alloc)?.as_slice())?)?;
    for text in texts {
        tell(out, &text.len())?;
    }
    Ok(())
}
