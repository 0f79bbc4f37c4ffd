//! Fields of a line.
ghost use Rattle.std.specs.Prelude.{◌≡◌, ◌≤◌, ◌∷◌, [], IfSome};
ghost use Rattle.trace_text.specs.Fields.{begins_badly as starts_badly, number_after, number_of, nibble_of, bit_of, lanes_of, byte_of};
ghost use Rattle.trace_text.specs.Fields.{with_digit as digit_more, hex_of, word_of};

use flat_model::{Lanes, Word};

const MOST_BEFORE_DIGIT: u64 = 1_152_921_504_606_846_975;

pub(crate) const MAX_TAG: u32 = u16::MAX as u32;

pub(crate) const MAX_NUMBER: u32 = u32::MAX;

/// The decimal number, at most `most`. `None` for anything else, as a zero in front.
pub fn number(text: &[u8], most: u32) -> Option<u32>
    ensures value { result ≡ number_of most text.now }
    ensures bound { IfSome result (λ n. n ≤ most) }
{
    if let [digit] = text {
        return lone_digit(*digit, most);
    }
    number_of_digits(text, most)
}

// Apart, so that the test for one digit is inlined.
#[inline(never)]
fn number_of_digits(text: &[u8], most: u32) -> Option<u32>
    ensures value { result ≡ number_of most text.now }
    ensures bound { IfSome result (λ n. n ≤ most) }
{
    if begins_badly(text) {
        return None;
    }
    let mut value = 0u64;
    for byte in text {
        if !byte.is_ascii_digit() {
            return None;
        }
        value = value * 10 + u64::from(*byte - b'0');
        if value > u64::from(most) {
            return None;
        }
    }
    Some(value as u32)
}

// Most numbers of a trace have one digit.
#[inline(always)]
fn lone_digit(digit: u8, most: u32) -> Option<u32>
    ensures value { result ≡ number_after most 0 (digit ∷ []) }
    ensures bound { IfSome result (λ n. n ≤ most) }
{
    if !digit.is_ascii_digit() || u32::from(digit - b'0') > most {
        return None;
    }
    Some(u32::from(digit - b'0'))
}

/// Whether no decimal number begins so: no digit, or a zero before others.
pub fn begins_badly(text: &[u8]) -> bool
    ensures { result ≡ starts_badly text.now }
{
    match text {
        [] => true,
        [_] => false,
        [first, ..] => *first == b'0',
    }
}

/// The value of `0` to `9` or `a` to `f`; else `None`.
pub fn nibble(byte: u8) -> Option<u8>
    ensures { result ≡ nibble_of byte }
{
    match byte {
        b'0'..=b'9' => Some(byte - b'0'),
        b'a'..=b'f' => Some(byte - b'a' + 10),
        _ => None,
    }
}

fn with_digit(value: u64, byte: u8) -> Option<u64>
    ensures { result ≡ digit_more value (nibble_of byte) }
{
    let digit = nibble(byte)?;
    if value > MOST_BEFORE_DIGIT {
        return None;
    }
    Some(value * 16 + u64::from(digit))
}

/// The number of these hexadecimal digits, with zeros in front or not. `None` for other bytes,
/// none, or 2^64 and more.
pub fn hexadecimal(text: &[u8]) -> Option<u64>
    ensures { result ≡ hex_of text.now }
{
    if text.is_empty() {
        return None;
    }
    let mut value = 0u64;
    for byte in text {
        value = with_digit(value, *byte)?;
    }
    Some(value)
}

fn bit(byte: u8) -> Option<u8>
    ensures { result ≡ bit_of byte }
{
    match byte {
        b'0' => Some(0),
        b'1' => Some(1),
        _ => None,
    }
}

pub(crate) fn lanes(text: &[u8]) -> Option<Lanes>
    ensures { result ≡ lanes_of text.now }
{
    match text {
        [a, b, c, d] => Some(Lanes(bit(*a)? + 2 * bit(*b)? + 4 * bit(*c)? + 8 * bit(*d)?)),
        _ => None,
    }
}

/// The byte of two hexadecimal digits.
pub fn byte(high: u8, low: u8) -> Option<u8>
    ensures { result ≡ byte_of high low }
{
    Some(nibble(high)? * 16 + nibble(low)?)
}

pub(crate) fn word(text: &[u8]) -> Option<Word>
    ensures { result ≡ word_of text.now }
{
    match text {
        [a, b, c, d, e, f, g, h] => Some(Word {
            b0: byte(*a, *b)?,
            b1: byte(*c, *d)?,
            b2: byte(*e, *f)?,
            b3: byte(*g, *h)?,
        }),
        _ => None,
    }
}
