//! Lines as wholes: which are skipped, which begins, and what each other one is about.

ghost use Rattle.std.specs.Prelude.{◌≡◌, ◌+◌, ◌≤◌, ◌∷◌, ℕ, List, length};
ghost use Rattle.std.specs.List.{list_all};
ghost use Rattle.spin_objects.specs.Units.{HandlerUnit, GuardUnit};
ghost use Rattle.spin_grammar.specs.Lookup.{look_up};
ghost use Rattle.spin_script.specs.Sections.{first_words, section, is_retire, is_out_of_order};
ghost use Rattle.spin_script.specs.Language.{head, is_allowed, version_word, version_of};
ghost use Rattle.spin_script.specs.Inner.Drafts.{state};
ghost use Rattle.spin_script.specs.Inner.Reader.{head_seen, HasRoom};

use crate::draft::Draft;
use spin_grammar::{Cause, Kind, Words, look_up};

/// What a line is.
#[derive(Drop)]
pub enum Found<'a> {
    /// It has no words, or begins with a number sign.
    Skipped,
    /// It is the first line, and names this version.
    Begins(u8),
    /// It is about this, in these words behind its first.
    Says(Kind, Words<'a>),
}

fn is_allowed(byte: u8) -> bool
    ensures { result ≡ is_allowed byte }
{
    byte == b'\t' || (32 <= byte && byte <= 126)
}

/// Whether each byte of a line is a tab or printable ASCII.
pub fn all_allowed(line: &[u8]) -> bool
    ensures { result ≡ list_all is_allowed line.now }
{
    let mut allowed = true;
    for byte in line {
        allowed &= is_allowed(*byte);
    }
    allowed
}

// The words that lines begin with. Most lines of long scripts are a lane's, so its word stands first.
const FIRST_WORDS: [(&[u8], Kind); 11] = [
    (b"lane", Kind::Lane),
    (b"modules", Kind::Modules),
    (b"event", Kind::Event),
    (b"endpoint", Kind::Endpoint),
    (b"handler", Kind::Handler),
    (b"guard", Kind::Guard),
    (b"rule", Kind::Rule),
    (b"authoriser", Kind::Authoriser),
    (b"default", Kind::Default),
    (b"barrier", Kind::Barrier),
    (b"retire", Kind::Retire),
];

// What a line with this first word is about.
fn kind_of(word: &[u8]) -> Option<Kind>
    ensures { result ≡ look_up word.now first_words }
{
    look_up(word, FIRST_WORDS.as_slice())
}

// The number of the section of such a line.
pub(crate) fn section(kind: Kind) -> u8
    ensures { result ≡ section kind }
{
    match kind {
        Kind::Modules => 1,
        Kind::Event => 2,
        Kind::Endpoint => 3,
        Kind::Handler => 4,
        Kind::Guard => 5,
        Kind::Rule | Kind::Authoriser => 6,
        Kind::Default => 7,
        Kind::Lane | Kind::Barrier | Kind::Retire => 8,
    }
}

// Whether such a line retires an endpoint.
fn is_retire(kind: Kind) -> bool
    ensures { result ≡ is_retire kind }
{
    matches!(kind, Kind::Retire)
}

// Whether such a line can't stand behind a line of that section, which began a segment or didn't.
fn is_out_of_order(kind: Kind, before: u8, begins: bool) -> bool
    ensures { result ≡ is_out_of_order kind before begins }
{
    let section = section(kind);
    section < before || section == 1 && before == 1 || is_retire(kind) && !begins
}

fn version_word(word: &[u8]) -> Option<u8>
    ensures { result ≡ version_word word.now }
{
    if word == b"1".as_slice() {
        return Some(1);
    }
    if word == b"2".as_slice() {
        return Some(2);
    }
    if word == b"3".as_slice() {
        return Some(3);
    }
    None
}

// The version that the words of the first line name.
fn version_of(words: &mut Words) -> Option<u8>
    ensures { result ≡ version_of words.old }
{
    let first = words.next()?;
    let second = words.next()?;
    if words.next().is_some() || first != b"spin".as_slice() {
        return None;
    }
    version_word(second)
}

// What the line is, behind this draft.
#[tactic(auto, unfolding(crate::specs::Language::head))]
pub(crate) fn find_head<'a>(draft: &Draft, line: &'a [u8]) -> Result<Found<'a>, Cause>
    ensures head { (handlers : List HandlerUnit) (guards : List GuardUnit)
        → head_seen result ≡ head (state draft.now handlers guards) line.now }
    ensures room { HasRoom result (length line.now + 1) }
{
    if !all_allowed(line) {
        return Err(Cause::NotAscii);
    }
    let mut words = Words::new(line);
    let mut again = Words::new(line);
    let Some(first) = words.next() else {
        return Ok(Found::Skipped);
    };
    if !first.is_empty() && first[0] == b'#' {
        return Ok(Found::Skipped);
    }
    if draft.version == 0 {
        return match version_of(&mut again) {
            None => Err(Cause::Version),
            Some(version) => Ok(Found::Begins(version)),
        };
    }
    let Some(kind) = kind_of(first) else {
        return Err(Cause::Keyword);
    };
    if is_out_of_order(kind, draft.section, draft.begins) {
        return Err(Cause::Order);
    }
    Ok(Found::Says(kind, words))
}
