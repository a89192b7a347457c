//! Cycles of parts: the logarithm, its terms and their sums.

ghost use Rattle.std.specs.Prelude.{◌≡◌, ◌≤◌, option_map, IfSome};
ghost use Rattle.bz_model.specs.Fraction.{IsFractionBits};
ghost use Rattle.series_bounds.specs.Series.{Kind, part_down, part_up, range_up, from_down};
ghost use Rattle.series_bounds.specs.Series.{from_up, log_down, log_up};
ghost use Rattle.series_bounds.specs.ExactSums.{IsAtMostTerms, IsAtLeastTerms, IsReached};
ghost use Rattle.series_bounds.specs.ExactSums.{IsAboveAll};

use crate::series_terms::Construction;
use crate::value_bounds::{from_hi, from_lo, part_hi, part_lo, range_hi};
use fixed_enclosure::{Hi, Lo};

/// A lower bound of the logarithm of `1 / (1 - a)`: the terms `a^j / j` for j from 1 on, rounded
/// down.
///
/// In units of `2^-F`, up to the first power of at most one unit, or to term 4096. `u64::MAX` from
/// a = 1 on. Takes no memory.
pub fn log_lo<const F: u32>(a: Lo<F>) -> Lo<F>
    requires fraction_bits { IsFractionBits F }
    ensures exact { result.0 ≡ log_down F a.entry.0 }
    ensures lower { IsReached Kind.Cyc F a.entry.0 1 result.0 }
{
    from_lo(Construction::Cycle, a, 1)
}

/// An upper bound of the logarithm of `1 / (1 - a)`: the terms `a^j / j` for j from 1 on, rounded
/// up.
///
/// In units of `2^-F`, up to the first power of at most one unit, or to term 4096, and a bound of
/// all that follow. `None` exactly where a is 1 or more, or the bound passes `u64::MAX`. Takes no
/// memory.
pub fn log_hi<const F: u32>(a: Hi<F>) -> Option<Hi<F>>
    requires fraction_bits { IsFractionBits F }
    ensures exact { option_map (λ h. h.0) result ≡ log_up F a.entry.0 }
    ensures upper { IfSome result (λ h. IsAboveAll Kind.Cyc F a.entry.0 1 h.0) }
{
    from_hi(Construction::Cycle, a, 1)
}

/// A lower bound of the sum of the terms `a^j / j` for j from `low` to `i`; 0 where `i` is below
/// `low`.
///
/// In units of `2^-F`, each term rounded down. 0 where a term before `low` passes `u64::MAX`, and
/// `u64::MAX` where a later term or the sum does. Sums at most `i + 1` terms, fewer where they
/// become 0 or the sum is full. Takes no memory.
pub fn cyc_part_lo<const F: u32>(a: Lo<F>, low: u64, i: u64) -> Lo<F>
    requires fraction_bits { IsFractionBits F }
    requires places { (1 ≤ low) × (low ≤ 64) }
    requires options { i ≤ 1000000 }
    ensures exact { result.0 ≡ part_down Kind.Cyc F a.entry.0 low i }
    ensures lower { IsAtMostTerms Kind.Cyc F a.entry.0 low i result.0 }
{
    part_lo(Construction::Cycle, a, low, i)
}

/// An upper bound of the sum of the terms `a^j / j` for j from `low` to `i`, or `cap`; 0 where `i`
/// is below `low`.
///
/// In units of `2^-F`, each term rounded up. `cap` where the sum is above it, or a term up to `i`,
/// one before `low` too, passes `u64::MAX`. Sums at most `i + 1` terms, fewer where they are all
/// equal from some place on. Takes no memory.
pub fn cyc_part_hi<const F: u32>(a: Hi<F>, low: u64, i: u64, cap: Hi<F>) -> Hi<F>
    requires fraction_bits { IsFractionBits F }
    requires places { (1 ≤ low) × (low ≤ 64) }
    requires options { i ≤ 1000000 }
    ensures exact { result.0 ≡ part_up Kind.Cyc F a.entry.0 low i cap.entry.0 }
    ensures upper { IsAtLeastTerms Kind.Cyc F a.entry.0 low i cap.entry.0
        → IsAtLeastTerms Kind.Cyc F a.entry.0 low i result.0 }
{
    part_hi(Construction::Cycle, a, low, i, cap)
}

/// An upper bound of the sum of the terms `a^j / j` for j from `low` to `i`; 0 where `i` is below
/// `low`.
///
/// In units of `2^-F`, each term rounded up. `None` exactly where `i` is at least `low` and a term
/// up to `i`, one before `low` too, or the sum passes `u64::MAX`. Sums at most `i + 1` terms. Takes
/// no memory.
pub fn cyc_range_hi<const F: u32>(a: Hi<F>, low: u64, i: u64) -> Option<Hi<F>>
    requires fraction_bits { IsFractionBits F }
    requires places { (1 ≤ low) × (low ≤ 64) }
    requires options { i ≤ 1000000 }
    ensures exact { option_map (λ h. h.0) result ≡ range_up Kind.Cyc F a.entry.0 low i }
    ensures upper { IfSome result (λ h. IsAtLeastTerms Kind.Cyc F a.entry.0 low i h.0) }
{
    range_hi(Construction::Cycle, a, low, i)
}

/// A lower bound of the terms `a^j / j` for all j from `low` on, which finitely many of them reach.
///
/// In units of `2^-F`, each power and term rounded down, up to the first power of at most one unit,
/// or to term 4096. `u64::MAX` from a = 1 on. Takes no memory.
pub fn cyc_from_lo<const F: u32>(a: Lo<F>, low: u64) -> Lo<F>
    requires fraction_bits { IsFractionBits F }
    requires places { (1 ≤ low) × (low ≤ 64) }
    ensures exact { result.0 ≡ from_down Kind.Cyc F a.entry.0 low }
    ensures lower { IsReached Kind.Cyc F a.entry.0 low result.0 }
{
    from_lo(Construction::Cycle, a, low)
}

/// An upper bound of every finite sum of the terms `a^j / j` for j from `low` on.
///
/// In units of `2^-F`, each power and term rounded up, up to term J: the first with a power of at
/// most one unit, or 4096, but at least `low - 1`. All that follow are at most `a^(J + 1) / ((J +
/// 1) * (1 - a))`, which is added. `None` exactly where a is 1 or more, or the bound passes
/// `u64::MAX`. Takes no memory.
pub fn cyc_from_hi<const F: u32>(a: Hi<F>, low: u64) -> Option<Hi<F>>
    requires fraction_bits { IsFractionBits F }
    requires places { (1 ≤ low) × (low ≤ 64) }
    ensures exact { option_map (λ h. h.0) result ≡ from_up Kind.Cyc F a.entry.0 low }
    ensures upper { IfSome result (λ h. IsAboveAll Kind.Cyc F a.entry.0 low h.0) }
{
    from_hi(Construction::Cycle, a, low)
}
