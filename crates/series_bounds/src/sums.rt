//! Sums of the terms of a series, rounded to a side.

ghost use Rattle.std.specs.Prelude.{◌≡◌, ◌+◌, ◌-◌, ◌*◌, ◌^◌, ◌<◌, ◌≤◌, option_map, IfSome};
ghost use Rattle.bz_model.specs.Fraction.{IsFractionBits};
ghost use Rattle.series_bounds.specs.Running.{kind_of, kept, up_to, summed_down, summed_up};
ghost use Rattle.series_bounds.specs.Running.{carried_up};

use crate::series_terms::{Construction, carry_down, carry_up, is_flat, term_down, term_up};
use fixed_enclosure::narrow::{GREATEST, power_of_two};

/// The lower sum of the terms from `low` to `i`, 0 where a term before `low` passes 64 bits.
///
/// It ends at a term of 0, after which all are 0, and at a full sum.
#[inline]
pub fn lower_sum<const F: u32>(kind: Construction, a: u64, low: u64, i: u64) -> u64
    requires fraction_bits { IsFractionBits F }
    requires places { (low ≤ 64) × (i ≤ 1000000) }
    ensures exact { result ≡ summed_down (kind_of kind) F a low i }
{
    let mut carried = power_of_two(F);
    let mut sum = 0_u64;
    let mut place = 0;
    'terms: loop {
        let term = term_down(kind, place, carried);
        if term > GREATEST {
            return if place < low { 0 } else { u64::MAX };
        }
        sum = sum.saturating_add(kept_of(low, place, term as u64));
        if place >= i || carried == 0 || sum == u64::MAX {
            return sum;
        }
        carried = carry_down::<F>(kind, a, place, carried);
        place += 1;
    }
}

/// An upper sum up to a term, and the number carried to that term.
#[derive(Clone, Copy)]
pub struct Summed {
    /// The sum, in units of `2^-F`.
    pub sum: u64,
    /// The number carried to the last term that was summed.
    pub carried: u128,
}

/// The upper sum of the terms from `low` to `i`, where all terms up to `i` fit and it is at most
/// `most`.
///
/// It ends at the first term of which all later ones are copies.
#[inline]
pub fn upper_sum<const F: u32>(
    kind: Construction,
    a: u64,
    low: u64,
    i: u64,
    most: u64,
) -> Option<Summed>
    requires fraction_bits { IsFractionBits F }
    requires places { (low ≤ 64) × (i ≤ 1000000) }
    ensures exact { option_map (λ s. s.sum) result ≡ summed_up (kind_of kind) F a most low i }
    ensures last { IfSome result (λ s. s.carried ≡ carried_up (kind_of kind) F a i) }
    ensures in_range { IfSome result (λ s. s.carried < 2 ^ 85) }
{
    let mut carried = power_of_two(F);
    let mut sum = 0_u64;
    let mut place = 0;
    'terms: loop {
        let term = term_up(kind, place, carried);
        if term > GREATEST {
            return None;
        }
        let total = u128::from(sum) + u128::from(kept_of(low, place, term as u64));
        if total > u128::from(most) {
            return None;
        }
        sum = total as u64;
        if place >= i {
            return Some(Summed { sum, carried });
        }
        if is_flat::<F>(kind, a, place, carried) {
            return flat_sum(low, place + 1, i - place, carried, sum, most);
        }
        carried = carry_up::<F>(kind, a, place, carried);
        place += 1;
    }
}

/// The sum with `count` further terms, from `place` on, that are all the number carried.
fn flat_sum(low: u64, place: u64, count: u64, carried: u128, sum: u64, most: u64) -> Option<Summed>
    requires in_range { (carried ≤ 1) × (count ≤ 1000000) }
    ensures exact { option_map (λ s. s.sum) result
        ≡ up_to most (sum + carried * (count - (low - place))) }
    ensures last { IfSome result (λ s. s.carried ≡ carried) }
{
    let counted = count.saturating_sub(low.saturating_sub(place));
    let total = u128::from(sum) + carried * u128::from(counted);
    if total > u128::from(most) {
        return None;
    }
    Some(Summed {
        sum: total as u64,
        carried,
    })
}

/// What a term adds to a sum from `low` on: nothing before `low`.
#[inline(always)]
fn kept_of(low: u64, place: u64, term: u64) -> u64
    ensures exact { result ≡ kept low place term }
    ensures within { result ≤ term }
{
    if place < low { 0 } else { term }
}
