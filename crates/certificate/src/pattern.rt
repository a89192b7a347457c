//! Lines of words and numbers, written and read by their patterns.
ghost use Rattle.std.specs.Prelude.{◌≡◌, ◌≢◌, ℕ, ◌+◌, ◌^◌, ◌<◌, ◌≤◌, ◌↔◌, ◌∷◌, ◌++◌, [], List};
ghost use Rattle.std.specs.Prelude.{true, length, slice_index, IsTrue, IfSome, IfNone};
ghost use Rattle.std.specs.Prelude.{OnOk};
ghost use Rattle.std.specs.Bool.{OnTrue};
ghost use Rattle.certificate.specs.Patterns.{filled, places, is_apart, HasNoDigit, AreSmall};
ghost use Rattle.certificate.specs.Patterns.{BeginsNumber, BeginsFilled};

use bz_model::number::read_number;
use object_text::append::{push_byte, push_number};
use std::alloc::AllocError;

/// Appends a pattern filled with these numbers: each `#` of it is replaced by the next one.
pub(crate) fn push_filled(
    text: &mut Vec<u8>,
    pattern: &[u8],
    numbers: &[u64],
) -> Result<(), AllocError>
    requires { places pattern.now ≤ length numbers.now }
    ensures { OnOk result (text.new.items ≡ text.old.items ++ filled pattern.now numbers.now) }
{
    let mut next = 0;
    for byte in pattern {
        if *byte == b'#' {
            push_number(text, numbers[next])?;
            next += 1;
        } else {
            push_byte(text, *byte)?;
        }
    }
    Ok(())
}

/// How many digits a text begins with.
fn digits(text: &[u8]) -> usize
    ensures within { result ≤ length text.now }
    ensures digits { (k : ℕ) → k < result → (48 ≤ slice_index text.now k)
        × (slice_index text.now k ≤ 57) }
    ensures ends { result < length text.now
        → ¬ ((48 ≤ slice_index text.now result) × (slice_index text.now result ≤ 57)) }
{
    for (i, byte) in text.iter().enumerate() {
        if *byte < b'0' || *byte > b'9' {
            return i;
        }
    }
    text.len()
}

/// The number at the front of a text, up to its first byte that is no digit, and what follows it.
fn number_at(text: &[u8]) -> Option<(u64, &[u8])>
    ensures found { IfSome result (λ found. BeginsNumber text.now found.0 found.1.now) }
    ensures none { IfNone result ((n : ℕ) (rest : List ℕ) → ¬ BeginsNumber text.now n rest) }
{
    let count = digits(text);
    let front = &text[..count];
    let rest = &text[count..];
    let n = read_number(front, u64::MAX)?;
    Some((n, rest))
}

/// What follows a byte at the front of a text.
fn behind(byte: u8, text: &[u8]) -> Option<&[u8]>
    ensures found { IfSome result (λ rest. text.now ≡ byte ∷ rest.now) }
    ensures none { IfNone result ((rest : List ℕ) → text.now ≢ byte ∷ rest) }
{
    match text {
        [first, rest @ ..] if *first == byte => Some(rest),
        _ => None,
    }
}

/// What follows a pattern at the front of a text, with the numbers that fill it there.
pub(crate) fn read_front<'a>(
    pattern: &[u8],
    text: &'a [u8],
    numbers: &mut [u64],
) -> Option<&'a [u8]>
    requires apart { is_apart pattern.now ≡ true }
    requires room { places pattern.now ≤ length numbers.old }
    ensures found { IfSome result (λ rest. BeginsFilled pattern.now text.now numbers.new rest.now) }
    ensures none { IfNone result ((others rest : List ℕ)
        → ¬ BeginsFilled pattern.now text.now others rest) }
{
    let mut next = 0;
    let mut rest = text;
    for byte in pattern {
        if *byte == b'#' {
            let (n, left) = number_at(rest)?;
            numbers[next] = n;
            next += 1;
            rest = left;
        } else {
            rest = behind(*byte, rest)?;
        }
    }
    if digits(rest) == 0 { Some(rest) } else { None }
}

/// Whether a line is a pattern filled with numbers, which it then finds.
pub(crate) fn read_whole(pattern: &[u8], line: &[u8], numbers: &mut [u64]) -> bool
    requires apart { is_apart pattern.now ≡ true }
    requires room { places pattern.now ≤ length numbers.old }
    ensures found { OnTrue result (AreSmall numbers.new
        × (line.now ≡ filled pattern.now numbers.new)) }
    ensures none { (others : List ℕ) → AreSmall others → line.now ≡ filled pattern.now others
        → IsTrue result }
{
    match read_front(pattern, line, numbers) {
        Some(rest) => rest.is_empty(),
        None => false,
    }
}
