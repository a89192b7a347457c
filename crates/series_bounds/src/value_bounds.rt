//! The values of a range of numbers of parts, once for the three constructions.

ghost use Rattle.std.specs.Prelude.{◌≡◌, ◌+◌, ◌-◌, ◌^◌, ◌<◌, ◌≤◌, option_map, IfSome};
ghost use Rattle.bz_model.specs.Fraction.{IsFractionBits};
ghost use Rattle.series_bounds.specs.Series.{Kind, part_down, part_up, range_up, from_down};
ghost use Rattle.series_bounds.specs.Series.{from_up};
ghost use Rattle.series_bounds.specs.ExactSums.{first_term, IsAtMostTerms, IsAtLeastTerms};
ghost use Rattle.series_bounds.specs.ExactSums.{IsReached, IsAboveAll};
ghost use Rattle.series_bounds.specs.Running.{kind_of, value_down, value_up, last_up};

use crate::series_terms::{Construction, carry_down, carry_up};
use crate::sums::{lower_sum, upper_sum};
use fixed_enclosure::narrow::{fit, power_of_two};
use fixed_enclosure::upper::divide_up;
use fixed_enclosure::{Hi, Lo};

/// The number of the last term that an exponential sums.
const LAST_TERM: u64 = 127;

/// The greatest number of terms that a logarithm sums.
const MOST_TERMS: u64 = 4096;

/// A lower bound of the sum of the terms from `low` to `i`.
#[inline]
pub fn part_lo<const F: u32>(kind: Construction, a: Lo<F>, low: u64, i: u64) -> Lo<F>
    requires fraction_bits { IsFractionBits F }
    requires places { (low ≤ 64) × (i ≤ 1000000) }
    ensures exact { result.0 ≡ part_down (kind_of kind) F a.entry.0 low i }
    ensures lower { IsAtMostTerms (kind_of kind) F a.entry.0 low i result.0 }
{
    Lo(lower_sum::<F>(kind, a.0, low, i))
}

/// An upper bound of the sum of the terms from `low` to `i`, or the cap.
#[inline]
pub fn part_hi<const F: u32>(kind: Construction, a: Hi<F>, low: u64, i: u64, cap: Hi<F>) -> Hi<F>
    requires fraction_bits { IsFractionBits F }
    requires places { (low ≤ 64) × (i ≤ 1000000) }
    requires first { first_term (kind_of kind) ≤ low }
    ensures exact { result.0 ≡ part_up (kind_of kind) F a.entry.0 low i cap.entry.0 }
    ensures upper { IsAtLeastTerms (kind_of kind) F a.entry.0 low i cap.entry.0
        → IsAtLeastTerms (kind_of kind) F a.entry.0 low i result.0 }
{
    if i < low {
        return Hi(0);
    }
    match upper_sum::<F>(kind, a.0, low, i, cap.0) {
        Some(summed) => Hi(summed.sum),
        None => cap,
    }
}

/// An upper bound of the sum of the terms from `low` to `i`.
#[inline]
pub fn range_hi<const F: u32>(kind: Construction, a: Hi<F>, low: u64, i: u64) -> Option<Hi<F>>
    requires fraction_bits { IsFractionBits F }
    requires places { (low ≤ 64) × (i ≤ 1000000) }
    requires first { first_term (kind_of kind) ≤ low }
    ensures exact { option_map (λ h. h.0) result ≡ range_up (kind_of kind) F a.entry.0 low i }
    ensures upper { IfSome result (λ h. IsAtLeastTerms (kind_of kind) F a.entry.0 low i h.0) }
{
    if i < low {
        return Some(Hi(0));
    }
    let summed = upper_sum::<F>(kind, a.0, low, i, u64::MAX)?;
    Some(Hi(summed.sum))
}

/// A lower bound of the terms from `low` on, which finitely many of them reach.
#[inline]
pub fn from_lo<const F: u32>(kind: Construction, a: Lo<F>, low: u64) -> Lo<F>
    requires fraction_bits { IsFractionBits F }
    requires places { low ≤ 64 }
    requires first { first_term (kind_of kind) ≤ low }
    ensures exact { result.0 ≡ from_down (kind_of kind) F a.entry.0 low }
    ensures lower { IsReached (kind_of kind) F a.entry.0 low result.0 }
{
    value_lo(kind, a, low)
}

/// An upper bound of each finite sum of the terms from `low` on.
#[inline]
pub fn from_hi<const F: u32>(kind: Construction, a: Hi<F>, low: u64) -> Option<Hi<F>>
    requires fraction_bits { IsFractionBits F }
    requires places { low ≤ 64 }
    requires first { first_term (kind_of kind) ≤ low }
    ensures exact { option_map (λ h. h.0) result ≡ from_up (kind_of kind) F a.entry.0 low }
    ensures upper { IfSome result (λ h. IsAboveAll (kind_of kind) F a.entry.0 low h.0) }
{
    value_hi(kind, a, low)
}

/// The lower value from `low` on.
fn value_lo<const F: u32>(kind: Construction, a: Lo<F>, low: u64) -> Lo<F>
    requires fraction_bits { IsFractionBits F }
    requires places { low ≤ 64 }
    ensures exact { result.0 ≡ value_down (kind_of kind) F a.entry.0 low }
{
    match kind {
        Construction::Sequence => sequence_from_lo(a, low),
        Construction::Set => Lo(lower_sum::<F>(Construction::Set, a.0, low, LAST_TERM)),
        Construction::Cycle => cycle_from_lo(a, low),
    }
}

/// The upper value from `low` on.
fn value_hi<const F: u32>(kind: Construction, a: Hi<F>, low: u64) -> Option<Hi<F>>
    requires fraction_bits { IsFractionBits F }
    requires places { low ≤ 64 }
    ensures exact { option_map (λ h. h.0) result ≡ value_up (kind_of kind) F a.entry.0 low }
{
    match kind {
        Construction::Sequence => sequence_from_hi(a, low),
        Construction::Set => set_from_hi(a, low),
        Construction::Cycle => cycle_from_hi(a, low),
    }
}

/// The lower sequence, times the power `low`.
fn sequence_from_lo<const F: u32>(a: Lo<F>, low: u64) -> Lo<F>
    requires fraction_bits { IsFractionBits F }
    requires places { low ≤ 64 }
    ensures exact { result.0 ≡ value_down Kind.Seq F a.entry.0 low }
{
    if low == 0 {
        return a.seq();
    }
    if u128::from(a.0) >= power_of_two(F) {
        return Lo(u64::MAX);
    }
    let mut power = power_of_two(F);
    for place in 0..low {
        power = carry_down::<F>(Construction::Sequence, a.0, place, power);
    }
    Lo(power as u64).mul(a.seq())
}

/// The upper sequence, times the power `low`.
fn sequence_from_hi<const F: u32>(a: Hi<F>, low: u64) -> Option<Hi<F>>
    requires fraction_bits { IsFractionBits F }
    requires places { low ≤ 64 }
    ensures exact { option_map (λ h. h.0) result ≡ value_up Kind.Seq F a.entry.0 low }
{
    if low == 0 {
        return a.seq();
    }
    if u128::from(a.0) >= power_of_two(F) {
        return None;
    }
    let mut power = power_of_two(F);
    for place in 0..low {
        power = carry_up::<F>(Construction::Sequence, a.0, place, power);
    }
    Hi(power as u64).mul(a.seq()?)
}

/// The terms of the exponential from `low` to 127, and twice the next for all that follow.
fn set_from_hi<const F: u32>(a: Hi<F>, low: u64) -> Option<Hi<F>>
    requires fraction_bits { IsFractionBits F }
    requires places { low ≤ 64 }
    ensures exact { option_map (λ h. h.0) result ≡ value_up Kind.Set F a.entry.0 low }
{
    if u128::from(a.0) > 16 * power_of_two(F) {
        return None;
    }
    let summed = upper_sum::<F>(Construction::Set, a.0, low, LAST_TERM, u64::MAX)?;
    let next = carry_up::<F>(Construction::Set, a.0, LAST_TERM, summed.carried);
    let v = fit(u128::from(summed.sum) + 2 * next)?;
    Some(Hi(v))
}

/// The terms of the logarithm from `low` on: those after its end are 0.
fn cycle_from_lo<const F: u32>(a: Lo<F>, low: u64) -> Lo<F>
    requires fraction_bits { IsFractionBits F }
    requires places { low ≤ 64 }
    ensures exact { result.0 ≡ value_down Kind.Cyc F a.entry.0 low }
{
    if u128::from(a.0) >= power_of_two(F) {
        return Lo(u64::MAX);
    }
    Lo(lower_sum::<F>(Construction::Cycle, a.0, low, MOST_TERMS))
}

/// The terms of the logarithm from `low` to its end, and a bound of all that follow.
fn cycle_from_hi<const F: u32>(a: Hi<F>, low: u64) -> Option<Hi<F>>
    requires fraction_bits { IsFractionBits F }
    requires places { low ≤ 64 }
    ensures exact { option_map (λ h. h.0) result ≡ value_up Kind.Cyc F a.entry.0 low }
{
    let one = power_of_two(F);
    let argument = u128::from(a.0);
    if argument >= one {
        return None;
    }
    let last = last_term::<F>(a.0, low);
    let summed = upper_sum::<F>(Construction::Cycle, a.0, low, last, u64::MAX)?;
    let next = carry_up::<F>(Construction::Cycle, a.0, last, summed.carried);
    let rest = divide_up(next * one, u128::from(last + 1) * (one - argument));
    let v = fit(u128::from(summed.sum) + rest)?;
    Some(Hi(v))
}

/// The number of the last term that an upper logarithm sums: the first whose power is at most one
/// unit, or the greatest one, but at least `low - 1`.
fn last_term<const F: u32>(a: u64, low: u64) -> u64
    requires fraction_bits { IsFractionBits F }
    requires below_one { a < 2 ^ F }
    requires places { low ≤ 64 }
    ensures exact { result ≡ last_up F a low }
    ensures within { result ≤ 4096 }
{
    let mut power = u128::from(a);
    let mut place = 1;
    'powers: while power > 1 && place < MOST_TERMS {
        power = carry_up::<F>(Construction::Cycle, a, place, power);
        place += 1;
    }
    place.max(low.saturating_sub(1))
}
