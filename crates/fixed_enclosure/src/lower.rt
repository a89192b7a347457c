//! Lower values: results rounded down, which stop at `u64::MAX`.

ghost use Rattle.std.specs.Prelude.{◌≡◌, ◌^◌, ◌≤◌};
ghost use Rattle.bz_model.specs.Fraction.{IsFractionBits};
ghost use Rattle.fixed_enclosure.specs.Rounded.{atom_down, add_down, mul_down, seq_down};
ghost use Rattle.fixed_enclosure.specs.Enclosure.{IsAtMostQuotient, IsAtMostSum, IsAtMostProduct};
ghost use Rattle.fixed_enclosure.specs.Enclosure.{IsReachedByPowers};

use crate::narrow::{power_of_two, saturate};

/// A lower value, in units of `2^-F`.
///
/// A result that passes `u64::MAX` is `u64::MAX`, which is still a lower bound. No operation takes
/// memory.
#[derive(Clone, Copy, Debug, PartialEq, Eq)]
pub struct Lo<const F: u32>(pub u64);

impl<const F: u32> Lo<F> {
    /// A lower bound of the fraction `p / q`: `floor(p * 2^F / q)`, less than one unit below it.
    #[inline]
    pub fn atom(p: u64, q: u64) -> Lo<F>
        requires fraction_bits { IsFractionBits F }
        requires numerator { (1 ≤ p) × (p ≤ 1000000) }
        requires denominator { (1 ≤ q) × (q ≤ 1000000) }
        ensures exact { result.0 ≡ atom_down F p q }
        ensures lower { IsAtMostQuotient F p q result.0 }
    {
        Lo(saturate(u128::from(p) * power_of_two(F) / u128::from(q)))
    }

    /// A lower bound of the sum: the sum itself, up to `u64::MAX`.
    #[inline]
    pub fn add(self, b: Lo<F>) -> Lo<F>
        ensures exact { result.0 ≡ add_down self.entry.0 b.entry.0 }
        ensures lower { IsAtMostSum self.entry.0 b.entry.0 result.0 }
    {
        Lo(self.0.saturating_add(b.0))
    }

    /// A lower bound of the product: `floor(a * b / 2^F)`, less than one unit below it up to
    /// `u64::MAX`.
    #[inline]
    pub fn mul(self, b: Lo<F>) -> Lo<F>
        requires fraction_bits { IsFractionBits F }
        ensures exact { result.0 ≡ mul_down F self.entry.0 b.entry.0 }
        ensures lower { IsAtMostProduct F self.entry.0 b.entry.0 result.0 }
    {
        Lo(saturate((u128::from(self.0) * u128::from(b.0)) >> F))
    }

    /// A lower bound of `1 / (1 - a)`, which finitely many powers of a reach.
    ///
    /// That is `2^F` at a = 0 and `floor(2^(2F) / (2^F - a)) - 1` between 0 and 1: without the unit
    /// taken off, no finite sum might reach it. From a = 1 on the powers grow past every number,
    /// and the bound is `u64::MAX`.
    #[inline]
    pub fn seq(self) -> Lo<F>
        requires fraction_bits { IsFractionBits F }
        ensures exact { result.0 ≡ seq_down F self.entry.0 }
        ensures lower { IsReachedByPowers F self.entry.0 result.0 }
    {
        let one = power_of_two(F);
        let a = u128::from(self.0);
        if a == 0 {
            return Lo(one as u64);
        }
        if a >= one {
            return Lo(u64::MAX);
        }
        Lo(saturate(power_of_two(2 * F) / (one - a) - 1))
    }
}
