//! Whole numbers read from text.
ghost use Rattle.std.specs.Prelude.{◌≡◌, ℕ, ◌≤◌, ◌<◌, ◌↔◌, length, slice_index, EachIndex, IsTrue};
ghost use Rattle.std.specs.Prelude.{IsNone, IfSome};
ghost use Rattle.std.specs.Str.Parse.{AllDigits};
ghost use Rattle.bz_model.specs.Number.{IsNumber, number_value};

/// Whether the text is a decimal number without leading zeros, of whatever length.
pub fn is_number(text: &[u8]) -> bool
    ensures { IsTrue result ↔ IsNumber text.now }
{
    if !has_digits_alone(text) {
        return false;
    }
    if text.len() == 0 {
        return false;
    }
    if text[0] == b'0' {
        return text.len() == 1;
    }
    true
}

/// Whether each byte is a digit.
fn has_digits_alone(text: &[u8]) -> bool
    ensures { IsTrue result ↔ EachIndex text.now (λ i. (48 ≤ slice_index text.now i)
        × (slice_index text.now i ≤ 57)) }
{
    text.iter().all(|b| b'0' <= *b && *b <= b'9')
}

/// The number that the text stands for, where it is a decimal number without leading zeros and at
/// most `most`; `None` exactly where it isn't. Takes no memory.
pub fn read_number(text: &[u8], most: u64) -> Option<u64>
    ensures value { IfSome result (λ n. IsNumber text.now × (number_value text.now ≡ n)
        × (n ≤ most)) }
    ensures none { IsNone result → IsNumber text.now → most < number_value text.now }
{
    if is_number(text) {
        digits_value(text, most)
    } else {
        None
    }
}

/// The number that digits stand for, where it is at most `most`.
fn digits_value(digits: &[u8], most: u64) -> Option<u64>
    requires { AllDigits 10 digits.now }
    ensures value { IfSome result (λ n. (number_value digits.now ≡ n) × (n ≤ most)) }
    ensures none { IsNone result → most < number_value digits.now }
{
    let mut value: u64 = 0;
    for digit in digits {
        let next = u128::from(value) * 10 + u128::from(digit.saturating_sub(b'0'));
        if next > u128::from(most) {
            return None;
        }
        value = next as u64;
    }
    Some(value)
}
