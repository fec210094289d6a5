//! Answers: words with one space between them.

use crate::fault::Fault;
use std::fmt::Debug;

// A space, where something stands before it.
fn space(out: &mut String) -> Result<(), Fault> {
    if !out.is_empty() {
        out.push(' ')?;
    }
    Ok(())
}

/// Tells a value as `Debug` writes it.
pub(crate) fn tell<T: Debug>(out: &mut String, value: &T) -> Result<(), Fault> {
    space(out)?;
    write!(out, "{value:?}")?;
    Ok(())
}

/// Tells a word.
pub(crate) fn tell_word(out: &mut String, word: &str) -> Result<(), Fault> {
    space(out)?;
    out.push_str(word)?;
    Ok(())
}

/// Tells bytes as `x` and two hexadecimal digits for each.
pub(crate) fn tell_bytes(out: &mut String, bytes: &[u8]) -> Result<(), Fault> {
    tell_word(out, "x")?;
    for byte in bytes {
        write!(out, "{byte:02x}")?;
    }
    Ok(())
}

/// Tells bytes as a text between quotes, in which `\n`, `\r` and `\t` stand for the bytes of these names.
pub(crate) fn tell_text(out: &mut String, bytes: &[u8]) -> Result<(), Fault> {
    tell_word(out, "\"")?;
    for byte in bytes {
        match *byte {
            b'\n' => out.push_str("\\n")?,
            b'\r' => out.push_str("\\r")?,
            b'\t' => out.push_str("\\t")?,
            other => out.push(char::from(other))?,
        }
    }
    out.push('"')?;
    Ok(())
}
