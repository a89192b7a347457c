//! Upper values: results rounded up, which have no value past `u64::MAX`.

ghost use Rattle.std.specs.Prelude.{◌≡◌, ◌^◌, ◌≤◌, option_map, IfSome};
ghost use Rattle.bz_model.specs.Fraction.{IsFractionBits};
ghost use Rattle.fixed_enclosure.specs.Rounded.{atom_up, add_up, mul_up, seq_up, quotient_up};
ghost use Rattle.fixed_enclosure.specs.Enclosure.{IsAtLeastQuotient, IsAtLeastSum};
ghost use Rattle.fixed_enclosure.specs.Enclosure.{IsAtLeastProduct, IsAboveAllPowers};

use crate::narrow::{fit, power_of_two};

/// An upper value, in units of `2^-F`.
///
/// An operation answers `None` exactly where its result, rounded up, passes `u64::MAX`, and a
/// sequence also from 1 on. No operation takes memory.
#[derive(Clone, Copy, Debug, PartialEq, Eq)]
pub struct Hi<const F: u32>(pub u64);

impl<const F: u32> Hi<F> {
    /// An upper bound of the fraction `p / q`: `ceil(p * 2^F / q)`, less than one unit above it.
    ///
    /// `None` exactly where that passes `u64::MAX`.
    #[inline]
    pub fn atom(p: u64, q: u64) -> Option<Hi<F>>
        requires fraction_bits { IsFractionBits F }
        requires numerator { (1 ≤ p) × (p ≤ 1000000) }
        requires denominator { (1 ≤ q) × (q ≤ 1000000) }
        ensures exact { option_map (λ h. h.0) result ≡ atom_up F p q }
        ensures upper { IfSome result (λ h. IsAtLeastQuotient F p q h.0) }
    {
        let v = fit(divide_up(u128::from(p) * power_of_two(F), u128::from(q)))?;
        Some(Hi(v))
    }

    /// An upper bound of the sum: the sum itself.
    ///
    /// `None` exactly where it passes `u64::MAX`.
    #[inline]
    pub fn add(self, b: Hi<F>) -> Option<Hi<F>>
        ensures exact { option_map (λ h. h.0) result ≡ add_up self.entry.0 b.entry.0 }
        ensures upper { IfSome result (λ h. IsAtLeastSum self.entry.0 b.entry.0 h.0) }
    {
        let v = fit(u128::from(self.0) + u128::from(b.0))?;
        Some(Hi(v))
    }

    /// An upper bound of the product: `ceil(a * b / 2^F)`, less than one unit above it.
    ///
    /// `None` exactly where that passes `u64::MAX`.
    #[inline]
    pub fn mul(self, b: Hi<F>) -> Option<Hi<F>>
        requires fraction_bits { IsFractionBits F }
        ensures exact { option_map (λ h. h.0) result ≡ mul_up F self.entry.0 b.entry.0 }
        ensures upper { IfSome result (λ h. IsAtLeastProduct F self.entry.0 b.entry.0 h.0) }
    {
        let product = u128::from(self.0) * u128::from(b.0);
        let v = fit((product + (power_of_two(F) - 1)) >> F)?;
        Some(Hi(v))
    }

    /// An upper bound of `1 / (1 - a)` and so of every finite sum of powers of a:
    /// `ceil(2^(2F) / (2^F - a))`.
    ///
    /// `None` exactly where a is 1 or more, or the bound passes `u64::MAX`.
    #[inline]
    pub fn seq(self) -> Option<Hi<F>>
        requires fraction_bits { IsFractionBits F }
        ensures exact { option_map (λ h. h.0) result ≡ seq_up F self.entry.0 }
        ensures upper { IfSome result (λ h. IsAboveAllPowers F self.entry.0 h.0) }
    {
        let one = power_of_two(F);
        let a = u128::from(self.0);
        if a >= one {
            return None;
        }
        let v = fit(divide_up(power_of_two(2 * F), one - a))?;
        Some(Hi(v))
    }
}

/// `n / d`, rounded up. Takes no memory.
#[inline]
pub fn divide_up(n: u128, d: u128) -> u128
    requires divisor { 1 ≤ d }
    requires in_range { (n ≤ 2 ^ 120) × (d ≤ 2 ^ 120) }
    ensures exact { result ≡ quotient_up n d }
{
    (n + (d - 1)) / d
}
