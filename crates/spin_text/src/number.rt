//! Numbers and bytes in digits.

ghost use Rattle.std.specs.Prelude.{◌≡◌, ◌++◌, ◌<◌, decimal, take, length, OnOk, OnErr};
ghost use Rattle.std.specs.Char.{digit_char};
ghost use Rattle.spin_text.specs.Digits.{hex_digits};

use itoa::Buffer;
use spin_values::{NoMemory, Octets};

/// Appends a number in decimal digits, without leading zeros. After want of memory `out` is unchanged.
#[tactic(auto, using(std::proofs::lemmas::Fmt::decimal_digit))]
pub fn put_decimal(out: &mut Octets, number: u64) -> Result<(), NoMemory>
    ensures ok { OnOk result (out.new ≡ out.old ++ decimal number) }
    ensures err { OnErr result (out.new ≡ out.old) }
{
    if number < 10 {
        return out.push(b'0' + number as u8);
    }
    let mut buffer = Buffer::new();
    out.extend_from_slice(buffer.format(number).as_bytes())
}

// The hexadecimal digit of a number below 16, in lower case.
fn hex_digit(value: u8) -> u8
    requires { value < 16 }
    ensures { result ≡ digit_char value }
{
    if value < 10 {
        b'0' + value
    } else {
        b'a' + (value - 10)
    }
}

/// Appends bytes, two hexadecimal digits in lower case for each. After want of memory a front of them may stand
/// behind what was there. It takes time linear in their number.
#[tactic(auto, using(crate::proofs::Kept::kept_same, crate::proofs::Kept::kept_more, crate::proofs::Kept::kept_on))]
pub fn put_hex(out: &mut Octets, bytes: &[u8]) -> Result<(), NoMemory>
    ensures ok { OnOk result (out.new ≡ out.old ++ hex_digits bytes.now) }
    ensures err { OnErr result (take (length out.old) out.new ≡ out.old) }
{
    for byte in bytes {
        out.push(hex_digit(*byte / 16))?;
        out.push(hex_digit(*byte % 16))?;
    }
    Ok(())
}
