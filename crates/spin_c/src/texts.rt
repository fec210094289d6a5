//! The sentences by which `./spin` tells why a script or a capture is refused.

ghost use Rattle.std.specs.Prelude.{◌≡◌, map};
ghost use Rattle.std.specs.Option.{option_copied};
ghost use Rattle.spin_values.specs.First.{numbered};
ghost use Rattle.spin_c.specs.Texts.{TellsText};

use crate::copying::copy_to;

// written by tools/texts
/// The sentence of each cause for which a script is refused, that of cause 1 first.
pub const CAUSES: [&[u8]; 24] = [
    b"too large: the text is over 1,048,576 bytes",
    b"not ASCII: a byte that is neither a tab nor from 0x20 to 0x7E, but for the carriage return before a line feed",
    b"version: the first line that isn't skipped names no version; where there is none, at line 1",
    b"keyword: the first word begins no line, or `spin` stands again",
    b"order: the section lies before an earlier line's; a second `modules`; a `retire` that follows neither \
        `barrier` nor `retire`",
    b"number: a number in range was wanted, also where the word begins with a digit and an expression or a \
        HANDLER was wanted; behind `before` and `after` in version 3 the number isn't greater than the one before \
        it",
    b"signature: a signature, or `native`, was wanted",
    b"name: a name was wanted",
    b"word: one of several fixed words, or the only one that can stand there (in version 3 `before`, `after`), \
        an expression, a test, a step or a part was wanted",
    b"bytes: a value that begins with `x` isn't bytes",
    b"end: the line ends too early, or a word is left over (in a `handler` line that is cause 9, since another \
        step might follow)",
    b"next: the number of an event, endpoint, handler or guard isn't the next one",
    b"limit: the 17th rule of an event; the 1,001st command line, in version 3 the 4,097th; deeds over 65,536, \
        commands among them, a packet line counting its N",
    b"too deep (over 8): the first fault of the line's act, test or merge",
    b"too long (over 64 nodes): the first fault of the line's act, test or merge",
    b"no such argument: the first fault of the line's act, test or merge",
    b"wrong kind: the first fault of the line's act, test or merge",
    b"not var: the first fault of the line's act, test or merge",
    b"no result: the first fault of the line's act, test or merge",
    b"undeclared: an owner that is no module; an event, endpoint, handler or guard that isn't declared, in \
        declarations, steps and `retire`",
    b"mismatch: parts or a layer that the raised event doesn't take; an imposed guard without the event's kinds; \
        a default that can't serve the event; a rule for an event with a native authoriser, or the contrary",
    b"native: no native of that kind has the name",
    b"repeated: an endpoint's name, a default or an authoriser that stands already",
    b"lane: a lane over 7",
];

/// The sentence of each fault for which a capture is refused, that of fault 1 first.
pub const FAULTS: [&[u8]; 8] = [
    b"read fault: only where the source's count of faults rose",
    b"magic: where 24 bytes are there and that field isn't a listed one, in this order",
    b"version: where 24 bytes are there and that field isn't a listed one, in this order",
    b"link: where 24 bytes are there and that field isn't a listed one, in this order",
    b"short: where fewer than 24 bytes are there",
    b"too long: where the next record's captured length is over the limit",
    b"too many records: where a byte follows the last record that is allowed",
    b"spoilt: at every call after the reader's first refusal, which it names",
];
// to here

// The text of that number, counted from 1.
fn numbered(texts: &[&'static [u8]], number: u32) -> Option<&'static [u8]>
    ensures { option_copied result ≡ numbered (map (λ t. t.now) texts.now) number }
{
    if number == 0 {
        return None;
    }
    texts.get(number as usize - 1).copied()
}

// The sentence of a cause.
pub(crate) fn cause_text(cause: u32) -> Option<&'static [u8]>
    ensures { option_copied result ≡ numbered (map (λ t. t.now) CAUSES) cause }
{
    numbered(CAUSES.as_slice(), cause)
}

// The sentence of a capture's fault.
pub(crate) fn fault_text(fault: u32) -> Option<&'static [u8]>
    ensures { option_copied result ≡ numbered (map (λ t. t.now) FAULTS) fault }
{
    numbered(FAULTS.as_slice(), fault)
}

// Copies a text to the front of a buffer, and tells how many bytes it has; or that there is none.
pub(crate) fn tell_text(text: Option<&'static [u8]>, buffer: &mut [u8], wanted: &mut u64) -> u32
    ensures { TellsText (option_copied text.entry) buffer.old result buffer.new wanted.new }
{
    match text {
        Some(text) => {
            *wanted = text.len() as u64;
            copy_to(text, buffer)
        }
        None => {
            *wanted = 0;
            21
        }
    }
}
