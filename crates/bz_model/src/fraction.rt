//! The fraction x at which class values are taken.
ghost use Rattle.std.specs.Prelude.{◌≡◌, ℕ, ◌≤◌, ◌<◌, ◌≢◌, ◌∷◌, ◌++◌, length, slice_index, IfSome};
ghost use Rattle.std.specs.Prelude.{IsNone};
ghost use Rattle.bz_model.specs.Number.{IsPart, IsNumber, HasFractionForm, number_value};

use crate::number::{is_number, read_number};
use thiserror::Error;

/// The greatest number that either part of a fraction may be.
const MOST: u64 = 1_000_000;

/// A fraction `num / den`, both parts from 1 to 1_000_000.
#[derive(Clone, Copy, Debug, PartialEq, Eq)]
pub struct Fraction {
    pub num: u64,
    pub den: u64,
    pub ghost num_in_limits: { IsPart num },
    pub ghost den_in_limits: { IsPart den },
}

/// Why a text is no fraction within the limits.
#[derive(Clone, Copy, Debug, PartialEq, Eq, Error)]
pub enum FractionFault {
    /// The text isn't two numbers with a stroke between them, each without a leading zero.
    #[error("not a fraction")]
    NotAFraction,
    /// The text has that form, and a part is 0 or above 1_000_000.
    #[error("a part of the fraction is 0 or above 1000000")]
    OutOfRange,
}

impl Fraction {
    ghost use Rattle.bz_model.specs.FractionRead.{ReadsAs};

    /// The fraction that a text such as `3/16` stands for. Takes no memory.
    pub fn read(text: &[u8]) -> Result<Fraction, FractionFault>
        ensures { ReadsAs text.now result }
    {
        let Some((num, den)) = split(text) else {
            return Err(FractionFault::NotAFraction);
        };
        let Some(num) = read_part(num) else {
            return Err(FractionFault::OutOfRange);
        };
        let Some(den) = read_part(den) else {
            return Err(FractionFault::OutOfRange);
        };
        Ok(Fraction { num, den })
    }
}

/// The two numbers of a text that has the form of a fraction.
fn split(text: &[u8]) -> Option<(&[u8], &[u8])>
    ensures parts { IfSome result (λ p. (text.now ≡ p.0.now ++ 47 ∷ p.1.now) × IsNumber p.0.now
        × IsNumber p.1.now) }
    ensures none { IsNone result → ¬ (HasFractionForm text.now) }
{
    let Some(stroke) = first_stroke(text) else {
        return None;
    };
    let num = &text[..stroke];
    if !is_number(num) {
        return None;
    }
    let den = &text[stroke + 1..];
    if !is_number(den) {
        return None;
    }
    Some((num, den))
}

/// The place of the first stroke.
fn first_stroke(text: &[u8]) -> Option<usize>
    ensures here { IfSome result (λ i. (i < length text.now) × (slice_index text.now i ≡ 47)) }
    ensures before { IfSome result (λ i. (k : ℕ) → k < i → slice_index text.now k ≢ 47) }
    ensures none { IsNone result → (k : ℕ) → k < length text.now → slice_index text.now k ≢ 47 }
{
    for (i, b) in text.iter().enumerate() {
        if *b == b'/' {
            return Some(i);
        }
    }
    None
}

/// A part from 1 to 1_000_000.
fn read_part(text: &[u8]) -> Option<u64>
    requires { IsNumber text.now }
    ensures value { IfSome result (λ n. (number_value text.now ≡ n) × IsPart n) }
    ensures none { IsNone result → ¬ (IsPart (number_value text.now)) }
{
    match read_number(text, MOST) {
        Some(0) => None,
        part => part,
    }
}
