//! The words of the command line.

ghost use Rattle.std.specs.Prelude.{◌≡◌, ◌≤◌, [], ℕ, Bool, List, Option, All, Decides, MatchOption, codes, length, option_map, slice_index_or, take, IfOk};
ghost use Rattle.spinfilter.specs.Words.{IsName, IsOption, ReadsAs};

use spin_values::{NoMemory, Text};
use std::alloc::Global;

/// What the words ask for.
#[derive(Debug, Drop)]
pub struct Asked {
    /// The name of the script.
    pub script: Text,
    /// The names of the captures, one or more.
    pub captures: Vec<Text>,
    /// The name of the capture that is written, if one is.
    pub file: Option<Text>,
    /// Whether the counts are to be written.
    pub counts: bool,
}

// Whether a word may be a name: it isn't empty, and doesn't begin with `-`.
fn is_name(word: &Text) -> bool
    ensures { Decides result (IsName word.now) }
{
    match word.as_slice().first() {
        Some(byte) => *byte != b'-',
        None => false,
    }
}

// How many words there are before the first that is no name.
fn count_names(words: &[Text]) -> usize
    ensures within { result ≤ length words.now }
    ensures names { All IsName (take result words.now) }
    ensures end { IsName (slice_index_or words.now result []) → ⊥ }
{
    for at in 0..words.len() {
        if !is_name(&words[at]) {
            return at;
        }
    }
    words.len()
}

// Whether the word is that text.
fn is_word(word: &Text, text: &[u8]) -> bool
    ensures { Decides result (word.now ≡ text.now) }
{
    word.as_slice() == text
}

// What the words behind the captures ask for: the name of the capture that is written, and whether counts are.
fn read_options(words: &[Text]) -> Option<(Option<&Text>, bool)>
    ensures { MatchOption result
        ((file : Option (List ℕ)) (counts : Bool) → IsOption words.now file counts → ⊥)
        (λ options. IsOption words.now (option_map (λ name. name.now) options.0) options.1) }
{
    match words.len() {
        0 => Some((None, false)),
        1 => {
            if !is_word(&words[0], b"--counts") {
                return None;
            }
            Some((None, true))
        }
        2 => Some((Some(read_file(&words[0], &words[1])?), false)),
        3 => {
            if !is_word(&words[2], b"--counts") {
                return None;
            }
            Some((Some(read_file(&words[0], &words[1])?), true))
        }
        _ => None,
    }
}

// The name of the capture that is written, behind `-w`.
fn read_file<'a>(option: &Text, name: &'a Text) -> Option<&'a Text>
    ensures { MatchOption result
        (option.now ≡ codes "-w" → IsName name.now → ⊥)
        (λ file. (file.now ≡ name.now) × (option.now ≡ codes "-w") × IsName name.now) }
{
    if !is_word(option, b"-w") {
        return None;
    }
    if !is_name(name) {
        return None;
    }
    Some(name)
}

// A copy of the name, if there is one.
fn copied_name(name: Option<&Text>) -> Result<Option<Text>, NoMemory>
    ensures { IfOk result (λ copy. copy ≡ option_map (λ name. name.now) name.entry) }
{
    match name {
        Some(name) => Ok(Some(name.copy()?)),
        None => Ok(None),
    }
}

// Copies of these words.
fn copied(alloc: Global, words: &[Text]) -> Result<Vec<Text>, NoMemory>
    ensures { IfOk result (λ copies. copies.items ≡ words.now) }
{
    let mut copies = Vec::new(alloc);
    for word in words {
        copies.push(word.copy()?)?;
    }
    Ok(copies)
}

/// What the words ask for; none just where they have another form than `SCRIPT CAPTURE.. [-w FILE] [--counts]`, names being
/// words that aren't empty and don't begin with `-`.
pub fn read_words(alloc: Global, words: &[Text]) -> Result<Option<Asked>, NoMemory>
    ensures { IfOk result (ReadsAs words.now) }
{
    let count = count_names(words);
    if count < 2 {
        return Ok(None);
    }
    let Some((file, counts)) = read_options(&words[count..]) else {
        return Ok(None);
    };
    Ok(Some(Asked {
        script: words[0].copy()?,
        captures: copied(alloc, &words[1..count])?,
        file: copied_name(file)?,
        counts,
    }))
}
