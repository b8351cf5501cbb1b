//! The numbers of a text.

ghost use Rattle.std.specs.Prelude.{◌≡◌, ◌≤◌};
ghost use Rattle.std.specs.Char.{digit_value};
ghost use Rattle.kernel_text.specs.Tokens.{value_of_digits};
ghost use Rattle.kernel_text.specs.Lexemes.{below_two_to_64};

/// The value of a digit.
fn digit_value(digit: u8) -> u64
    ensures value { result ≡ digit_value digit }
    ensures most { result ≤ 36 }
{
    match digit {
        b'0'..=b'9' => u64::from(digit - b'0'),
        b'A'..=b'Z' => u64::from(digit - b'A') + 10,
        b'a'..=b'z' => u64::from(digit - b'a') + 10,
        _ => 36,
    }
}

/// The value of digits, or `None` where it is 2^64 or more.
pub(crate) fn value_of_digits(digits: &[u8]) -> Option<u64>
    ensures { result ≡ below_two_to_64 (value_of_digits digits.now) }
{
    let mut value: u64 = 0;
    for digit in digits {
        value = value.checked_mul(10)?.checked_add(digit_value(*digit))?;
    }
    Some(value)
}
