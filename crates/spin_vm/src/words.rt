//! What the words of one line say.

ghost use Rattle.std.specs.Prelude.{◌≡◌, [], Some, None, MatchOption};
ghost use Rattle.spin_vm.specs.Forms as specs;

use crate::line::{Region, Request, Statement};
use spin_grammar::{Words, look_up, number_of};

// The end of a line.
fn ended(words: &mut Words) -> Option<()>
    ensures { MatchOption result (words.old ≡ [] → ⊥) (λ _. words.old ≡ []) }
{
    match words.next() {
        None => Some(()),
        Some(_) => None,
    }
}

// The rights of regions, and whether a region with these may be written to.
const RIGHTS: [(&[u8], bool); 2] = [(b"r", false), (b"rw", true)];

// Whether a region with these rights may be written to.
fn rights_of(word: &[u8]) -> Option<bool>
    ensures { result ≡ specs.rights_of word.now }
{
    look_up(word, RIGHTS.as_slice())
}

// The kinds of accesses, and whether an access of this kind writes.
const KINDS: [(&[u8], bool); 2] = [(b"r", false), (b"w", true)];

// Whether an access of this kind writes.
fn kind_of(word: &[u8]) -> Option<bool>
    ensures { result ≡ specs.access_kind word.now }
{
    look_up(word, KINDS.as_slice())
}

fn space_form(words: &mut Words) -> Option<Statement>
    ensures { result ≡ specs.space_form words.old }
{
    let space = words.next()?;
    ended(words)?;
    Some(Statement::Space(number_of(space)?))
}

fn region_form(words: &mut Words) -> Option<Statement>
    ensures { result ≡ specs.region_form words.old }
{
    let space = words.next()?;
    let start = words.next()?;
    let pages = words.next()?;
    let rights = words.next()?;
    ended(words)?;
    let space = number_of(space)?;
    let region = Region {
        start: number_of(start)?,
        pages: number_of(pages)?,
        writable: rights_of(rights)?,
    };
    Some(Statement::At {
        space,
        request: Request::Region(region),
    })
}

fn unmap_form(words: &mut Words) -> Option<Statement>
    ensures { result ≡ specs.unmap_form words.old }
{
    let space = words.next()?;
    let page = words.next()?;
    ended(words)?;
    let space = number_of(space)?;
    let page = number_of(page)?;
    Some(Statement::At {
        space,
        request: Request::Unmap(page),
    })
}

fn access_form(words: &mut Words) -> Option<Statement>
    ensures { result ≡ specs.access_form words.old }
{
    let space = words.next()?;
    let address = words.next()?;
    let kind = words.next()?;
    ended(words)?;
    let space = number_of(space)?;
    let address = number_of(address)?;
    let write = kind_of(kind)?;
    Some(Statement::At {
        space,
        request: Request::Access { address, write },
    })
}

// What the words of a line say behind the first line, where they have one of the forms.
pub(crate) fn says(words: &mut Words) -> Option<Statement>
    ensures { result ≡ specs.says words.old }
{
    let first = words.next()?;
    if first == b"space".as_slice() {
        return space_form(words);
    }
    if first == b"region".as_slice() {
        return region_form(words);
    }
    if first == b"unmap".as_slice() {
        return unmap_form(words);
    }
    if first == b"access".as_slice() {
        return access_form(words);
    }
    None
}

// Whether these are the words of the first line.
pub(crate) fn is_first(words: &mut Words) -> bool
    ensures { result ≡ specs.is_first words.old }
{
    let (Some(name), Some(version), None) = (words.next(), words.next(), words.next()) else {
        return false;
    };
    name == b"vm".as_slice() && version == b"1".as_slice()
}
