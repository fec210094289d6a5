//! Numbers, in decimal and hexadecimal digits.

ghost use Rattle.std.specs.Prelude.{◌≡◌, ◌<◌, ◌≤◌, length, cond, Some, None};
ghost use Rattle.std.specs.Char.{digit_value};
ghost use Rattle.spin_grammar.specs.Spelling.{number, numeral, within, greatest};

// The value of a digit of a base of at most 36, and 36 at every other byte.
pub(crate) fn digit(byte: u8) -> u64
    ensures { result ≡ digit_value byte }
{
    u64::from(match byte {
        b'0'..=b'9' => byte - b'0',
        b'A'..=b'Z' => byte - b'A' + 10,
        b'a'..=b'z' => byte - b'a' + 10,
        _ => 36,
    })
}

// The number that digits stand for, where there is one and it is below 2^64.
fn numeral(radix: u64, digits: &[u8]) -> Option<u64>
    requires { 1 ≤ radix }
    ensures { result ≡ within 0 greatest (numeral radix digits.now) }
{
    if digits.is_empty() {
        return None;
    }
    let mut number: u64 = 0;
    for byte in digits {
        let value = digit(*byte);
        if value >= radix {
            return None;
        }
        let Some(shifted) = number.checked_mul(radix) else {
            return None;
        };
        let Some(sum) = shifted.checked_add(value) else {
            return None;
        };
        number = sum;
    }
    Some(number)
}

/// The number that a word stands for: of decimal digits, or of `0x` and 1 to 16 hexadecimal digits of either case.
/// `None` exactly where the word is neither, or the number isn't below 2^64. It takes time linear in the word.
#[tactic(auto, unfolding(crate::specs::Spelling::number))]
pub fn number_of(word: &[u8]) -> Option<u64>
    ensures { result ≡ within 0 greatest (number word.now) }
{
    if !word.starts_with(b"0x") {
        return numeral(10, word);
    }
    if word.len() > 18 {
        return None;
    }
    numeral(16, &word[2..])
}
