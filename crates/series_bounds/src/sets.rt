//! Sets of parts: the exponential, its terms and their sums.

ghost use Rattle.std.specs.Prelude.{◌≡◌, ◌≤◌, option_map, IfSome};
ghost use Rattle.bz_model.specs.Fraction.{IsFractionBits};
ghost use Rattle.series_bounds.specs.Series.{Kind, part_down, part_up, range_up, from_down};
ghost use Rattle.series_bounds.specs.Series.{from_up, exp_down, exp_up};
ghost use Rattle.series_bounds.specs.ExactSums.{IsAtMostTerms, IsAtLeastTerms, IsReached};
ghost use Rattle.series_bounds.specs.ExactSums.{IsAboveAll};

use crate::series_terms::Construction;
use crate::value_bounds::{from_hi, from_lo, part_hi, part_lo, range_hi};
use fixed_enclosure::{Hi, Lo};

/// A lower bound of `e^a`: the first 128 terms `a^j / j!`, each rounded down.
///
/// In units of `2^-F`. `u64::MAX` where a term or the sum passes it. Takes no memory.
pub fn exp_lo<const F: u32>(a: Lo<F>) -> Lo<F>
    requires fraction_bits { IsFractionBits F }
    ensures exact { result.0 ≡ exp_down F a.entry.0 }
    ensures lower { IsReached Kind.Set F a.entry.0 0 result.0 }
{
    from_lo(Construction::Set, a, 0)
}

/// An upper bound of `e^a`: the first 128 terms `a^j / j!`, each rounded up, and twice the next.
///
/// In units of `2^-F`. `None` exactly where a is above 16, or a term or the sum passes `u64::MAX`.
/// From the 129th term on each is at most half of the one before it, so twice the first of them
/// bounds their sum. Takes no memory.
pub fn exp_hi<const F: u32>(a: Hi<F>) -> Option<Hi<F>>
    requires fraction_bits { IsFractionBits F }
    ensures exact { option_map (λ h. h.0) result ≡ exp_up F a.entry.0 }
    ensures upper { IfSome result (λ h. IsAboveAll Kind.Set F a.entry.0 0 h.0) }
{
    from_hi(Construction::Set, a, 0)
}

/// A lower bound of the sum of the terms `a^j / j!` for j from `low` to `i`; 0 where `i` is below
/// `low`.
///
/// In units of `2^-F`, each term rounded down. 0 where a term before `low` passes `u64::MAX`, and
/// `u64::MAX` where a later term or the sum does. Sums at most `i + 1` terms, fewer where they
/// become 0 or the sum is full. Takes no memory.
pub fn set_part_lo<const F: u32>(a: Lo<F>, low: u64, i: u64) -> Lo<F>
    requires fraction_bits { IsFractionBits F }
    requires places { low ≤ 64 }
    requires options { i ≤ 1000000 }
    ensures exact { result.0 ≡ part_down Kind.Set F a.entry.0 low i }
    ensures lower { IsAtMostTerms Kind.Set F a.entry.0 low i result.0 }
{
    part_lo(Construction::Set, a, low, i)
}

/// An upper bound of the sum of the terms `a^j / j!` for j from `low` to `i`, or `cap`; 0 where `i`
/// is below `low`.
///
/// In units of `2^-F`, each term rounded up. `cap` where the sum is above it, or a term up to `i`,
/// one before `low` too, passes `u64::MAX`. Sums at most `i + 1` terms, fewer where they are all
/// equal from some place on. Takes no memory.
pub fn set_part_hi<const F: u32>(a: Hi<F>, low: u64, i: u64, cap: Hi<F>) -> Hi<F>
    requires fraction_bits { IsFractionBits F }
    requires places { low ≤ 64 }
    requires options { i ≤ 1000000 }
    ensures exact { result.0 ≡ part_up Kind.Set F a.entry.0 low i cap.entry.0 }
    ensures upper { IsAtLeastTerms Kind.Set F a.entry.0 low i cap.entry.0
        → IsAtLeastTerms Kind.Set F a.entry.0 low i result.0 }
{
    part_hi(Construction::Set, a, low, i, cap)
}

/// An upper bound of the sum of the terms `a^j / j!` for j from `low` to `i`; 0 where `i` is below
/// `low`.
///
/// In units of `2^-F`, each term rounded up. `None` exactly where `i` is at least `low` and a term
/// up to `i`, one before `low` too, or the sum passes `u64::MAX`. Sums at most `i + 1` terms. Takes
/// no memory.
pub fn set_range_hi<const F: u32>(a: Hi<F>, low: u64, i: u64) -> Option<Hi<F>>
    requires fraction_bits { IsFractionBits F }
    requires places { low ≤ 64 }
    requires options { i ≤ 1000000 }
    ensures exact { option_map (λ h. h.0) result ≡ range_up Kind.Set F a.entry.0 low i }
    ensures upper { IfSome result (λ h. IsAtLeastTerms Kind.Set F a.entry.0 low i h.0) }
{
    range_hi(Construction::Set, a, low, i)
}

/// A lower bound of the terms `a^j / j!` for all j from `low` on, which finitely many of them
/// reach.
///
/// In units of `2^-F`: the terms from `low` to 127, rounded down. 0 where a term before `low`
/// passes `u64::MAX`, and `u64::MAX` where a later one or the sum does. Takes no memory.
pub fn set_from_lo<const F: u32>(a: Lo<F>, low: u64) -> Lo<F>
    requires fraction_bits { IsFractionBits F }
    requires places { low ≤ 64 }
    ensures exact { result.0 ≡ from_down Kind.Set F a.entry.0 low }
    ensures lower { IsReached Kind.Set F a.entry.0 low result.0 }
{
    from_lo(Construction::Set, a, low)
}

/// An upper bound of every finite sum of the terms `a^j / j!` for j from `low` on.
///
/// In units of `2^-F`: the terms from `low` to 127, rounded up, and twice the next: from there on
/// each term is at most half of the one before it. `None` exactly where a is above 16, or a term up
/// to 127 or the sum passes `u64::MAX`. Takes no memory.
pub fn set_from_hi<const F: u32>(a: Hi<F>, low: u64) -> Option<Hi<F>>
    requires fraction_bits { IsFractionBits F }
    requires places { low ≤ 64 }
    ensures exact { option_map (λ h. h.0) result ≡ from_up Kind.Set F a.entry.0 low }
    ensures upper { IfSome result (λ h. IsAboveAll Kind.Set F a.entry.0 low h.0) }
{
    from_hi(Construction::Set, a, low)
}
