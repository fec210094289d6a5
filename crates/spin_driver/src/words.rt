//! The words of a row, which are read from its front on.
//!
//! A number is decimal, or hexadecimal behind `0x`. Bytes are `x` and two hexadecimal digits for each, or a text
//! between quotes in which `\n`, `\r` and `\t` stand for the bytes of these names. A list is numbers with commas
//! between them, and `-` where there are none.

use crate::fault::Fault;
use spin_values::{Args, Numbers, Octets, Value};
use std::alloc::Global;

/// What is left of a row.
#[derive(Drop)]
pub(crate) struct Words<'a> {
    rest: &'a str,
    gap: char,
}

impl<'a> Words<'a> {
    /// The words of a row.
    pub(crate) fn new(row: &'a str) -> Words<'a> {
        Words {
            rest: row,
            gap: ' ',
        }
    }

    /// The parts of a word, between which colons stand.
    pub(crate) fn parts(word: &'a str) -> Words<'a> {
        Words {
            rest: word,
            gap: ':',
        }
    }

    /// Whether no word is left.
    pub(crate) fn are_all_read(&self) -> bool {
        self.rest.is_empty()
    }

    /// The next word.
    pub(crate) fn word(&mut self) -> Result<&'a str, Fault> {
        let (word, rest) = self.rest.split_once(self.gap).unwrap_or((self.rest, ""));
        self.rest = rest;
        if word.is_empty() {
            return Err(Fault::BadRow);
        }
        Ok(word)
    }

    /// What the next word stands for in the table.
    pub(crate) fn one_of<T: Copy>(&mut self, table: &[(&str, T)]) -> Result<T, Fault> {
        let word = self.word()?;
        for (name, value) in table {
            if *name == word {
                return Ok(*value);
            }
        }
        Err(Fault::BadRow)
    }

    /// The next word as a number.
    pub(crate) fn u64(&mut self) -> Result<u64, Fault> {
        number(self.word()?)
    }

    /// The next word as a number.
    pub(crate) fn u32(&mut self) -> Result<u32, Fault> {
        u32::try_from(self.u64()?).or(Err(Fault::BadRow))
    }

    /// The next word as a number.
    pub(crate) fn u16(&mut self) -> Result<u16, Fault> {
        u16::try_from(self.u64()?).or(Err(Fault::BadRow))
    }

    /// The next word as a number.
    pub(crate) fn u8(&mut self) -> Result<u8, Fault> {
        u8::try_from(self.u64()?).or(Err(Fault::BadRow))
    }

    /// The next word as a list of numbers.
    pub(crate) fn numbers(&mut self, alloc: Global) -> Result<Numbers, Fault> {
        let mut numbers = Numbers::new(alloc);
        let word = self.word()?;
        if word != "-" {
            for item in word.split(',') {
                numbers.push(u16::try_from(number(item)?).or(Err(Fault::BadRow))?)?;
            }
        }
        Ok(numbers)
    }

    /// The next word as bytes.
    pub(crate) fn bytes(&mut self, alloc: Global) -> Result<Octets, Fault> {
        match self.rest.strip_prefix('"') {
            Some(behind) => self.quoted(alloc, behind),
            None => hex(alloc, self.word()?),
        }
    }

    // The text in front of the next quote, whose rest is left.
    fn quoted(&mut self, alloc: Global, behind: &'a str) -> Result<Octets, Fault> {
        let (text, rest) = behind.split_once('"').ok_or(Fault::BadRow)?;
        self.rest = rest.strip_prefix(self.gap).unwrap_or(rest);
        unescaped(alloc, text)
    }

    /// The next word as arguments: numbers and bytes of hexadecimal digits, with commas between them, or `-`.
    pub(crate) fn args(&mut self, alloc: Global) -> Result<Args, Fault> {
        let mut args = Args::new(alloc);
        let word = self.word()?;
        if word != "-" {
            for item in word.split(',') {
                args.push(value(alloc, item)?)?;
            }
        }
        Ok(args)
    }
}

/// The number that a word is.
pub(crate) fn number(word: &str) -> Result<u64, Fault> {
    let read = match word.strip_prefix("0x") {
        Some(digits) => u64::from_str_radix(digits, 16),
        None => u64::from_str_radix(word, 10),
    };
    read.or(Err(Fault::BadRow))
}

// The argument that a word is.
fn value(alloc: Global, word: &str) -> Result<Value, Fault> {
    if word.starts_with('x') {
        Ok(Value::Bytes(hex(alloc, word)?))
    } else {
        Ok(Value::Word(number(word)?))
    }
}

// The number that a hexadecimal digit is.
fn digit(byte: u8) -> Result<u8, Fault> {
    match byte {
        b'0'..=b'9' => Ok(byte - b'0'),
        b'a'..=b'f' => Ok(byte - b'a' + 10),
        _ => Err(Fault::BadRow),
    }
}

/// The bytes whose digits stand behind `x`.
pub(crate) fn hex(alloc: Global, word: &str) -> Result<Octets, Fault> {
    let digits = word.strip_prefix('x').ok_or(Fault::BadRow)?;
    let mut bytes = Octets::new(alloc);
    for pair in digits.as_bytes().chunks(2) {
        let [high, low] = *pair else {
            return Err(Fault::BadRow);
        };
        bytes.push(digit(high)?.wrapping_mul(16) | digit(low)?)?;
    }
    Ok(bytes)
}

// The byte that a letter behind a backslash stands for.
fn escaped(letter: u8) -> Result<u8, Fault> {
    match letter {
        b'n' => Ok(b'\n'),
        b'r' => Ok(b'\r'),
        b't' => Ok(b'\t'),
        _ => Err(Fault::BadRow),
    }
}

// The bytes of a text in which backslashes stand before letters.
fn unescaped(alloc: Global, text: &str) -> Result<Octets, Fault> {
    let (plain, rest) = text.split_once('\\').unwrap_or((text, ""));
    let mut bytes = Octets::from_bytes(alloc, plain.as_bytes())?;
    if !rest.is_empty() {
        for piece in rest.split('\\') {
            let (letter, plain) = piece.as_bytes().split_first().ok_or(Fault::BadRow)?;
            bytes.push(escaped(*letter)?)?;
            bytes.extend_from_slice(plain)?;
        }
    }
    Ok(bytes)
}
