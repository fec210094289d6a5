//! What is made from a number, against what `cases/generated.py` makes of it by itself.
//!
//! - `NUMBER`: the two lines of the script behind its head, for which is drawn first, its length, the capture's, and the
//!   digests of both.

use crate::fault::Fault;
use crate::told::{tell, tell_bytes, tell_text};
use crate::words::Words;
use md5::{Digest, Md5};
use spin_gen::generate;
use std::alloc::Global;

// How many bytes the script has before the first line for which is drawn.
const HEAD: usize = 771;

// The two lines that the text begins with.
fn two_lines(text: &[u8]) -> &[u8] {
    let mut ends = 0u8;
    for (at, byte) in text.iter().enumerate() {
        if *byte == b'\n' {
            if ends == 1 {
                return text.get(..=at).unwrap_or(text);
            }
            ends = 1;
        }
    }
    text
}

fn tell_digest(bytes: &[u8], out: &mut String) -> Result<(), Fault> {
    let mut hasher = Md5::new();
    hasher.update(bytes);
    tell_bytes(out, &hasher.finalize())
}

// Tells the length of what is made, and its digest.
fn tell_made(bytes: &[u8], out: &mut String) -> Result<(), Fault> {
    tell(out, &bytes.len())?;
    tell_digest(bytes, out)
}

pub(crate) fn answer(alloc: Global, words: &mut Words, out: &mut String) -> Result<(), Fault> {
    let made = generate(alloc, words.u64()?)?;
    let (_, behind) = made
        .script
        .as_slice()
        .split_at_checked(HEAD)
        .ok_or(Fault::BadRow)?;
    tell_text(out, two_lines(behind))?;
    tell_made(made.script.as_slice(), out)?;
    tell_made(made.capture.as_slice(), out)
}
