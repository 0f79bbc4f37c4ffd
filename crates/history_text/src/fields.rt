//! Fields of a line.
ghost use Rattle.std.specs.Prelude.{◌≡◌, ◌+◌, ◌^◌, ◌<◌, ◌≤◌, ◌∷◌, length, IfSome, IfNone};
ghost use Rattle.std.specs.Option.{option_map};
ghost use Rattle.trace_text.specs.Fields.{number_of, bit_of};
ghost use Rattle.history_text.specs.Fields.{most_number, value_of, bytes_in, bytes_of, enables_in};
ghost use Rattle.history_text.specs.Fields.{enables_of};

use crate::events::OperationBytes;
use arrayvec::ArrayVec;
use trace_text::{begins_badly, byte, hexadecimal};

fn decimal(text: &[u8]) -> Option<u64>
    ensures { result ≡ number_of most_number text.now }
{
    if begins_badly(text) {
        return None;
    }
    let mut value = 0u128;
    for byte in text {
        if !byte.is_ascii_digit() {
            return None;
        }
        value = value * 10 + u128::from(*byte - b'0');
        if value > u128::from(u64::MAX) {
            return None;
        }
    }
    Some(value as u64)
}

// Hexadecimal behind `0x`, else decimal.
pub(crate) fn value(text: &[u8]) -> Option<u64>
    ensures { result ≡ value_of text.now }
{
    match text {
        [b'0', b'x', digits @ ..] => hexadecimal(digits),
        _ => decimal(text),
    }
}

fn first_pair(text: &[u8]) -> Option<(u8, u8, &[u8])>
    ensures some { IfSome result (λ pair. text.now ≡ pair.0 ∷ pair.1 ∷ pair.2.now) }
    ensures none { IfNone result (length text.now ≤ 1) }
{
    match text {
        [high, low, behind @ ..] => Some((*high, *low, behind)),
        _ => None,
    }
}

fn digit_pairs(text: &[u8]) -> Option<OperationBytes>
    requires { length text.now ≤ 128 }
    ensures { option_map (λ bytes. bytes.items) result ≡ bytes_in text.now }
{
    let mut bytes = ArrayVec::new();
    let mut rest = text;
    'pairs: while let Some((high, low, behind)) = first_pair(rest) {
        bytes.push(byte(high, low)?);
        rest = behind;
    }
    if rest.is_empty() { Some(bytes) } else { None }
}

pub(crate) fn bytes(text: &[u8]) -> Option<OperationBytes>
    ensures { option_map (λ bytes. bytes.items) result ≡ bytes_of text.now }
{
    if 2 <= text.len() && text.len() <= 128 {
        digit_pairs(text)
    } else {
        None
    }
}

fn bit(byte: u8) -> Option<u64>
    ensures value { result ≡ bit_of byte }
    ensures bound { IfSome result (λ bit. bit < 2) }
{
    match byte {
        b'0' => Some(0),
        b'1' => Some(1),
        _ => None,
    }
}

// The first digit is the lowest bit.
fn enable_bits(digits: &[u8]) -> Option<u64>
    requires { length digits.now ≤ 64 }
    ensures value { result ≡ enables_in digits.now }
    ensures bound { IfSome result (λ enables. enables < 2 ^ length digits.now) }
{
    match digits {
        [] => Some(0),
        [first, rest @ ..] => {
            let enables = enable_bits(rest);
            Some(bit(*first)? + 2 * enables?)
        }
    }
}

// With no such field all are enabled.
pub(crate) fn enables(count: usize, digits: Option<&[u8]>) -> Option<u64>
    requires { count ≤ 64 }
    ensures { result ≡ enables_of count (option_map (λ text. text.now) digits.entry) }
{
    match digits {
        None => Some(u64::MAX),
        Some(digits) => {
            if digits.len() == count {
                enable_bits(digits)
            } else {
                None
            }
        }
    }
}
