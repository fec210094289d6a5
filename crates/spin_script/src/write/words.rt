//! The words of names, signatures, bytes and arguments.

ghost use Rattle.std.specs.Prelude.{◌≡◌, ◌++◌, ◌∷◌, [], OnOk};
ghost use Rattle.spin_grammar.specs.Grammar.{Argument, Called, Typed, Blob};
ghost use Rattle.spin_grammar.specs.Canonical.{letters, params_word};
ghost use Rattle.spin_grammar.specs.Canonical as grammar;
ghost use Rattle.spin_script.specs.Canonical.{spoken, marked, by_value};

use spin_text::{put_decimal, put_hex, put_word};
use spin_values::{EventType, Kind, NoMemory, Octets, Param, Text};

// Appends a name, with a space before it.
pub(super) fn put_name(out: &mut Octets, name: &Text) -> Result<(), NoMemory>
    ensures { OnOk result (out.new ≡ out.old ++ spoken (Called name.now ∷ [])) }
{
    put_word(out, name.as_slice())
}

// The letter of a parameter.
fn letter(kind: Kind, var: bool) -> u8
    ensures { result ≡ grammar.letter kind var }
{
    match (kind, var) {
        (Kind::Word, false) => b'w',
        (Kind::Word, true) => b'W',
        (Kind::Bytes, false) => b'b',
        (Kind::Bytes, true) => b'B',
    }
}

// Appends the letters of parameters, whose marks of var count or don't.
fn put_letters(out: &mut Octets, params: &[Param], marks: bool) -> Result<(), NoMemory>
    ensures { OnOk result (out.new ≡ out.old ++ letters (marked marks params.now)) }
{
    for param in params {
        out.push(letter(param.kind, marks && param.var))?;
    }
    Ok(())
}

// Appends parameters, with a space before them.
fn put_params(out: &mut Octets, params: &[Param], marks: bool) -> Result<(), NoMemory>
    ensures { OnOk result (out.new ≡ out.old ++ 32 ∷ params_word (marked marks params.now)) }
{
    out.push(b' ')?;
    if params.is_empty() {
        return out.push(b'-');
    }
    put_letters(out, params, marks)
}

// Appends a signature, with a space before it.
#[tactic(auto, using(crate::proofs::WrittenParts::typed_result, crate::proofs::WrittenParts::typed_plain))]
pub(super) fn put_signature(out: &mut Octets, sig: &EventType) -> Result<(), NoMemory>
    ensures { OnOk result (out.new ≡ out.old ++ spoken (Typed sig.now ∷ [])) }
{
    put_params(out, sig.params.as_slice(), true)?;
    if sig.gives {
        out.extend_from_slice(b":w")?;
    }
    Ok(())
}

// Appends the signature of a guard, which is in lower case and gives no result, with a space before it.
pub(super) fn put_guard_signature(out: &mut Octets, sig: &EventType) -> Result<(), NoMemory>
    ensures { OnOk result (out.new ≡ out.old ++ spoken (Typed (by_value sig.now) ∷ [])) }
{
    put_params(out, sig.params.as_slice(), false)
}

// Appends the word of bytes, with a space before it.
pub(super) fn put_bytes(out: &mut Octets, bytes: &[u8]) -> Result<(), NoMemory>
    ensures { OnOk result (out.new ≡ out.old ++ spoken (Blob bytes.now ∷ [])) }
{
    out.extend_from_slice(b" x")?;
    put_hex(out, bytes)
}

// Appends the word of an argument, with a space before it.
pub(super) fn put_argument(out: &mut Octets, argument: u8) -> Result<(), NoMemory>
    ensures { OnOk result (out.new ≡ out.old ++ spoken (Argument argument ∷ [])) }
{
    out.extend_from_slice(b" a")?;
    put_decimal(out, u64::from(argument))
}
