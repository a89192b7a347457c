//! Numbers of objects read from text.
ghost use Rattle.std.specs.Prelude.{◌≡◌, ◌+◌, ◌-◌, ◌*◌, ◌^◌, ◌≤◌, IsNone, IfSome};
ghost use Rattle.std.specs.Str.Parse.{AllDigits};
ghost use Rattle.bz_model.specs.Number.{IsNumber, number_value};

use bz_model::number::is_number;

/// The number that the text stands for, where it is a decimal number without leading zeros and
/// below `2^128`; `None` exactly where it isn't. Takes no memory.
pub fn read_rank(text: &[u8]) -> Option<u128>
    ensures value { IfSome result (λ n. IsNumber text.now × (number_value text.now ≡ n)) }
    ensures none { IsNone result → IsNumber text.now → 2 ^ 128 ≤ number_value text.now }
{
    if is_number(text) {
        digits_value(text)
    } else {
        None
    }
}

/// The number that digits stand for, where it is below `2^128`.
fn digits_value(digits: &[u8]) -> Option<u128>
    requires { AllDigits 10 digits.now }
    ensures value { IfSome result (λ n. number_value digits.now ≡ n) }
    ensures none { IsNone result → 2 ^ 128 ≤ number_value digits.now }
{
    let mut value: u128 = 0;
    for digit in digits {
        let Some(longer) = with_digit(value, *digit) else {
            return None;
        };
        value = longer;
    }
    Some(value)
}

/// The number with one digit more, where it is below `2^128`.
fn with_digit(value: u128, digit: u8) -> Option<u128>
    ensures value { IfSome result (λ n. n ≡ value * 10 + (digit - 48)) }
    ensures none { IsNone result → 2 ^ 128 ≤ value * 10 + (digit - 48) }
{
    let shifted = value.checked_mul(10)?;
    shifted.checked_add(u128::from(digit.saturating_sub(b'0')))
}
