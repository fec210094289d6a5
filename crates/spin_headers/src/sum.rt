//! The checksum of the internet protocols, RFC 1071.

ghost use Rattle.std.specs.Prelude.{◌≡◌, ◌≤◌, ◌<◌, ◌+◌, ◌%◌, ◌^◌};
ghost use Rattle.spin_headers.specs.Sums.{folded, word_total, checksum_of};

use byteorder::{BigEndian, ByteOrder};

// The greatest sum, which is that of valid words.
pub(crate) const WHOLE: u16 = 0xFFFF;

// The sum and one more word, with the carry added at the low end.
pub(crate) fn add_word(sum: u16, word: u16) -> u16
    ensures { result ≡ folded (sum + word) }
{
    let total = u32::from(sum) + u32::from(word);
    (total % 0x1_0000 + total / 0x1_0000) as u16
}

// The sum and the words of the bytes one by one, an odd last byte as the high byte of a word.
fn add_single_words(sum: u16, bytes: &[u8]) -> u16
    ensures { result ≡ folded (sum + word_total bytes.now) }
{
    let mut total = sum;
    let mut rest = bytes;
    while rest.len() >= 2 {
        total = add_word(total, BigEndian::read_u16(rest));
        rest = &rest[2..];
    }
    if rest.len() == 1 {
        return add_word(total, u16::from(rest[0]) * 256);
    }
    total
}

// The sum and two words more, with the carry added at the low end: what it is congruent to modulo 65,535 it stays.
fn add_pair(sum: u64, pair: u32) -> u64
    requires { sum ≤ 2 ^ 32 }
    ensures small { result ≤ 2 ^ 32 }
    ensures same { result % 65535 ≡ (sum + pair) % 65535 }
    ensures some { 0 < sum + pair → 0 < result }
    ensures few { result ≤ sum + pair }
{
    let total = sum + u64::from(pair);
    total % 0x1_0000_0000 + total / 0x1_0000_0000
}

// The sum in 16 bits.
fn fold(sum: u64) -> u16
    ensures { result ≡ folded sum }
{
    if sum == 0 {
        return 0;
    }
    ((sum - 1) % 65535 + 1) as u16
}

// The sum and the words of the bytes, an odd last byte as the high byte of a word. It takes one pass.
pub(crate) fn add_words(sum: u16, bytes: &[u8]) -> u16
    ensures { result ≡ folded (sum + word_total bytes.now) }
{
    let mut total = u64::from(sum);
    let mut rest = bytes;
    while rest.len() >= 4 {
        total = add_pair(total, BigEndian::read_u32(rest));
        rest = &rest[4..];
    }
    add_single_words(fold(total), rest)
}

/// The checksum of the bytes: the complement of the one's complement sum of their 16-bit words, highest byte
/// first. An odd last byte is padded with a zero byte on its right (RFC 1071). It takes one pass.
pub fn checksum(bytes: &[u8]) -> u16
    ensures { result ≡ checksum_of bytes.now }
{
    WHOLE - add_words(0, bytes)
}
