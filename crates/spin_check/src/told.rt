//! What the line of an entry tells: its lane, and the cycle of a conflict.
//!
//! Nothing is said of a report that begins with no such line: who asks makes the whole line anew, and compares it.

ghost use Rattle.std.specs.Prelude.{◌≡◌, ◌<◌, ◌≤◌, ◌^◌, ◌++◌, ◌∷◌, true, false, ℕ, List};
ghost use Rattle.std.specs.Prelude.{Some, All, IfOk, decimal, length, map, slice_index};
ghost use Rattle.spin_report.specs.declared.entry.Entry.{Entry};
ghost use Rattle.spin_text.specs.Words.{Word, spaced};
ghost use Rattle.spin_check.specs.Inner.Told.{is_plain, IsWord, Begins, TellsVerdict, conflict};

use spin_values::{NoMemory, Numbers};
use std::alloc::Global;
use std::str;

fn is_plain(byte: u8) -> bool
    ensures { result ≡ is_plain byte }
{
    byte != b' ' && byte != b'\n'
}

// How many bytes stand before the first space or line feed.
fn word_len(report: &[u8]) -> usize
    ensures within { result ≤ length report.now }
    ensures before { (k : ℕ) → k < result → is_plain (slice_index report.now k) ≡ true }
    ensures found { result < length report.now → is_plain (slice_index report.now result) ≡ false }
{
    for (at, byte) in report.iter().enumerate() {
        if !is_plain(*byte) {
            return at;
        }
    }
    report.len()
}

// The bytes up to the first space or line feed, and those from it on.
fn split_word(report: &[u8]) -> (&[u8], &[u8])
    ensures word { (word : Word) (byte : ℕ) (more : List ℕ) → IsWord word → is_plain byte ≡ false
        → report.now ≡ word ++ byte ∷ more → (result.0.now ≡ word) × (result.1.now ≡ byte ∷ more) }
    ensures less { length result.1.now ≤ length report.now }
{
    report.split_at(word_len(report))
}

// The report behind its first word.
fn behind_word(report: &[u8]) -> &[u8]
    ensures { (word : Word) (byte : ℕ) (more : List ℕ) → IsWord word → is_plain byte ≡ false
        → report.now ≡ word ++ byte ∷ more → result.now ≡ byte ∷ more }
{
    split_word(report).1
}

// The number that a word of digits tells.
fn number_told(word: &[u8]) -> Option<u16>
    ensures { (n : ℕ) → n < 2 ^ 16 → word.now ≡ decimal n → result ≡ Some n }
{
    match str::from_utf8(word) {
        Ok(text) => text.parse::<u16>().ok(),
        Err(_) => None,
    }
}

// The lane of the entry whose line the report begins with.
pub(crate) fn lane_told(report: &[u8]) -> Option<u8>
    ensures { (entry : Entry) → entry.lane < 10 → Begins report.now entry → result ≡ Some entry.lane }
{
    let rest = behind_word(report);
    if rest.len() < 2 {
        return None;
    }
    let digit = rest[1];
    if digit < b'0' {
        return None;
    }
    Some(digit - b'0')
}

// The numbers that follow, each behind one space.
fn numbers_told(alloc: Global, report: &[u8]) -> Result<Option<Numbers>, NoMemory>
    ensures { (ns more : List ℕ) → All (λ n. n < 2 ^ 16) ns → report.now ≡ spaced (map decimal ns) ++ 10 ∷ more
        → IfOk result (λ told. told ≡ Some ns) }
{
    let mut numbers = Numbers::new(alloc);
    let mut rest = report;
    while let Some((first, after)) = rest.split_first() {
        if *first != b' ' {
            break;
        }
        let (word, others) = split_word(after);
        let Some(number) = number_told(word) else {
            return Ok(None);
        };
        numbers.push(number)?;
        rest = others;
    }
    Ok(Some(numbers))
}

// The report behind its first words, so many and one more.
fn behind_words(report: &[u8], count: u8) -> &[u8]
    ensures { (word : Word) (words : List Word) (byte : ℕ) (more : List ℕ) → IsWord word
        → All IsWord words → length words ≡ count → is_plain byte ≡ false
        → report.now ≡ word ++ spaced words ++ byte ∷ more → result.now ≡ byte ∷ more }
{
    let mut rest = behind_word(report);
    for _passed in 0..count {
        if let Some((_, after)) = rest.split_first() {
            rest = behind_word(after);
        }
    }
    rest
}

// The cycle of the conflict whose entry's line the report begins with. Its numbers stand behind seven words.
pub(crate) fn cycle_told(alloc: Global, report: &[u8]) -> Result<Option<Numbers>, NoMemory>
    ensures { (cycle : List ℕ) → All (λ n. n < 2 ^ 16) cycle → TellsVerdict report.now (conflict cycle)
        → IfOk result (λ told. told ≡ Some cycle) }
{
    numbers_told(alloc, behind_words(report, 6))
}
