//! The numbers of a text. A number may be past 2^64, however far.

ghost use Rattle.std.specs.Prelude.{◌≡◌, ◌≤◌, ◌<◌, true, ℕ, List};
ghost use Rattle.std.specs.Char.{digit_value};
ghost use Rattle.asm_statements.specs.Tokens.{behind_sign, has_sign, number_token, unsigned_value, value_of_digits};
ghost use Rattle.asm_statements.specs.Mnemonics.{is_number_in_range, suits, value_of, amount, one_core};
ghost use Rattle.asm_statements.specs.Rows.{below_two_to_64};

use crate::tokens::{digits_len, has_sign, hex_len, is_hexadecimal};

/// The value of a digit.
fn digit_value(digit: u8) -> u64
    ensures value { result ≡ digit_value digit }
    ensures most { result ≤ 36 }
{
    match digit {
        b'0'..=b'9' => u64::from(digit - b'0'),
        b'A'..=b'Z' => u64::from(digit - b'A') + 10,
        b'a'..=b'z' => u64::from(digit - b'a') + 10,
        _ => 36,
    }
}

/// The value of digits, or `None` where it is 2^64 or more.
fn value_of_digits(base: u64, digits: &[u8]) -> Option<u64>
    requires { (1 ≤ base) × (base ≤ 16) }
    ensures { result ≡ below_two_to_64 (value_of_digits base digits.now) }
{
    let mut value: u64 = 0;
    for digit in digits {
        value = value.checked_mul(base)?.checked_add(digit_value(*digit))?;
    }
    Some(value)
}

/// The value of the number without a sign that stands first, or `None` where it is 2^64 or more.
fn magnitude(bytes: &[u8]) -> Option<u64>
    ensures { result ≡ below_two_to_64 (unsigned_value bytes.now) }
{
    if is_hexadecimal(bytes) {
        let digits = &bytes[2..];
        value_of_digits(16, &digits[..hex_len(digits)])
    } else {
        value_of_digits(10, &bytes[..digits_len(bytes)])
    }
}

/// The bytes behind a sign, if one stands first.
fn behind_sign(bytes: &[u8]) -> &[u8]
    ensures { result.now ≡ behind_sign bytes.now }
{
    if has_sign(bytes) { &bytes[1..] } else { bytes }
}

/// Whether the number that stands first is from 0 on.
pub(crate) fn is_amount(bytes: &[u8]) -> bool
    ensures { result ≡ suits amount (number_token bytes.now) }
{
    !has_sign(bytes) || magnitude(behind_sign(bytes)) == Some(0)
}

/// Whether the number that stands first is a core's, 0 to 7.
pub(crate) fn is_core(bytes: &[u8]) -> bool
    ensures { result ≡ suits one_core (number_token bytes.now) }
{
    match magnitude(behind_sign(bytes)) {
        Some(core) => core < 8 && is_amount(bytes),
        None => false,
    }
}

/// The core's number that stands first.
pub(crate) fn core(bytes: &[u8]) -> u8
    requires { suits one_core (number_token bytes.now) ≡ true }
    ensures core { (places : List ℕ → ℕ) → result ≡ value_of places (number_token bytes.now) }
    ensures within { result < 8 }
{
    match magnitude(behind_sign(bytes)) {
        Some(core) if core < 8 => core as u8,
        _ => 0,
    }
}

/// Whether the number that stands first is from -2^63 to 2^64 - 1.
pub(crate) fn is_in_range(bytes: &[u8]) -> bool
    ensures { result ≡ is_number_in_range (number_token bytes.now) }
{
    match magnitude(behind_sign(bytes)) {
        Some(magnitude) => !has_sign(bytes) || magnitude <= 1 << 63,
        None => false,
    }
}

/// The number that stands first, modulo 2^64. It is from -2^63 to 2^64 - 1.
pub fn value_of_number(bytes: &[u8]) -> u64
    requires { is_number_in_range (number_token bytes.now) ≡ true }
    ensures { (places : List ℕ → ℕ) → result ≡ value_of places (number_token bytes.now) }
{
    let magnitude = magnitude(behind_sign(bytes)).unwrap_or(0);
    if has_sign(bytes) {
        magnitude.wrapping_neg()
    } else {
        magnitude
    }
}
