//! Words, each behind one space.

ghost use Rattle.std.specs.Prelude.{◌≡◌, ◌++◌, ◌∷◌, [], decimal, map, take, length, OnOk, OnErr};
ghost use Rattle.spin_text.specs.Words.{spaced};

use crate::number::put_decimal;
use spin_values::{NoMemory, Octets};

/// Appends a word, with a space before it. After want of memory the space may stand behind what was there.
#[tactic(auto, using(crate::proofs::Kept::kept_same, crate::proofs::Kept::kept_more, crate::proofs::Kept::kept_on))]
pub fn put_word(out: &mut Octets, word: &[u8]) -> Result<(), NoMemory>
    ensures ok { OnOk result (out.new ≡ out.old ++ spaced (word.now ∷ [])) }
    ensures err { OnErr result (take (length out.old) out.new ≡ out.old) }
{
    out.push(b' ')?;
    out.extend_from_slice(word)
}

/// Appends a number in decimal digits, with a space before it. After want of memory the space may stand behind what
/// was there.
#[tactic(auto, using(crate::proofs::Kept::kept_same, crate::proofs::Kept::kept_more, crate::proofs::Kept::kept_on))]
pub fn put_number(out: &mut Octets, number: u64) -> Result<(), NoMemory>
    ensures ok { OnOk result (out.new ≡ out.old ++ spaced (decimal number ∷ [])) }
    ensures err { OnErr result (take (length out.old) out.new ≡ out.old) }
{
    out.push(b' ')?;
    put_decimal(out, number)
}

/// Appends numbers in their order, each with a space before it. After want of memory the first of them may stand
/// behind what was there.
#[tactic(auto, using(crate::proofs::Kept::kept_same, crate::proofs::Kept::kept_more, crate::proofs::Kept::kept_on))]
pub fn put_numbers(out: &mut Octets, numbers: &[u16]) -> Result<(), NoMemory>
    ensures ok { OnOk result (out.new ≡ out.old ++ spaced (map decimal numbers.now)) }
    ensures err { OnErr result (take (length out.old) out.new ≡ out.old) }
{
    for number in numbers {
        put_number(out, u64::from(*number))?;
    }
    Ok(())
}
