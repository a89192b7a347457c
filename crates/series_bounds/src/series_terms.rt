//! The terms of a series, one after the other.
//!
//! From term to term a number is carried: the power of the argument, and for a set the power over
//! `j!`. A power of a cycle may pass 64 bits where its term, the power over j, doesn't.

ghost use Rattle.std.specs.Prelude.{◌≡◌, ◌+◌, ◌*◌, ◌/◌, ◌^◌, ◌<◌, ◌≤◌, IsTrue};
ghost use Rattle.bz_model.specs.Fraction.{IsFractionBits};
ghost use Rattle.fixed_enclosure.specs.Rounded.{Side, quotient_up};
ghost use Rattle.series_bounds.specs.Series.{carried_on, term};
ghost use Rattle.series_bounds.specs.Running.{kind_of, IsFlat};

use fixed_enclosure::narrow::{GREATEST, power_of_two};

/// The three counted constructions, each of which has a series.
#[derive(Clone, Copy)]
pub enum Construction {
    Sequence,
    Set,
    Cycle,
}

/// `2^64`: a carried number is taken in two halves where it passes 64 bits.
const HALF: u128 = 0x1_0000_0000_0000_0000;

/// The number carried to term `place + 1` from the one carried to term `place`, rounded down.
#[inline(always)]
pub fn carry_down<const F: u32>(kind: Construction, a: u64, place: u64, c: u128) -> u128
    requires fraction_bits { IsFractionBits F }
    requires places { place ≤ 1000000 }
    requires in_range { c < 2 ^ 85 }
    ensures exact { result ≡ carried_on Side.Down (kind_of kind) F a place c }
{
    let scaled = scale_down::<F>(c, a);
    match kind {
        Construction::Sequence | Construction::Cycle => scaled,
        Construction::Set => divide(scaled, place + 1),
    }
}

/// The number carried to term `place + 1` from the one carried to term `place`, rounded up.
#[inline(always)]
pub fn carry_up<const F: u32>(kind: Construction, a: u64, place: u64, c: u128) -> u128
    requires fraction_bits { IsFractionBits F }
    requires places { place ≤ 1000000 }
    requires in_range { c < 2 ^ 85 }
    ensures exact { result ≡ carried_on Side.Up (kind_of kind) F a place c }
    ensures within { result ≤ 2 ^ 126 }
{
    let scaled = scale_up::<F>(c, a);
    match kind {
        Construction::Sequence | Construction::Cycle => scaled,
        Construction::Set => divide(scaled + u128::from(place), place + 1),
    }
}

/// The term of which c is the number carried to it, rounded down.
#[inline(always)]
pub fn term_down(kind: Construction, place: u64, c: u128) -> u128
    ensures exact { result ≡ term Side.Down (kind_of kind) place c }
{
    match kind {
        Construction::Sequence | Construction::Set => c,
        Construction::Cycle => { if place == 0 { 0 } else { divide(c, place) } }
    }
}

/// The term of which c is the number carried to it, rounded up.
#[inline(always)]
pub fn term_up(kind: Construction, place: u64, c: u128) -> u128
    requires in_range { c ≤ 2 ^ 126 }
    ensures exact { result ≡ term Side.Up (kind_of kind) place c }
{
    match kind {
        Construction::Sequence | Construction::Set => c,
        Construction::Cycle => {
            if place == 0 {
                0
            } else {
                divide(c + u128::from(place - 1), place)
            }
        }
    }
}

/// Whether each later upper term is c, the number carried to this one: then c is 0 or 1.
#[inline(always)]
pub fn is_flat<const F: u32>(kind: Construction, a: u64, place: u64, c: u128) -> bool
    requires fraction_bits { IsFractionBits F }
    requires places { place ≤ 1000000 }
    ensures flat { IsTrue result → IsFlat (kind_of kind) F a place c }
{
    let divisor = match kind {
        Construction::Sequence | Construction::Cycle => 1,
        Construction::Set => u128::from(place + 1),
    };
    c <= 1 && c <= u128::from(a) && u128::from(a) <= divisor * power_of_two(F)
}

/// `c * a / 2^F`, rounded down.
#[inline(always)]
fn scale_down<const F: u32>(c: u128, a: u64) -> u128
    requires fraction_bits { IsFractionBits F }
    requires in_range { c < 2 ^ 85 }
    ensures exact { result ≡ c * a / 2 ^ F }
    ensures within { result ≤ 2 ^ 125 }
{
    let factor = u128::from(a);
    if c <= GREATEST {
        (c * factor) >> F
    } else {
        c / HALF * factor * power_of_two(64 - F) + ((c % HALF * factor) >> F)
    }
}

/// `c * a / 2^F`, rounded up.
#[inline(always)]
fn scale_up<const F: u32>(c: u128, a: u64) -> u128
    requires fraction_bits { IsFractionBits F }
    requires in_range { c < 2 ^ 85 }
    ensures exact { result ≡ quotient_up (c * a) (2 ^ F) }
    ensures within { result ≤ 2 ^ 125 }
{
    let factor = u128::from(a);
    let rounding = power_of_two(F) - 1;
    if c <= GREATEST {
        (c * factor + rounding) >> F
    } else {
        c / HALF * factor * power_of_two(64 - F) + ((c % HALF * factor + rounding) >> F)
    }
}

/// `n / d`, rounded down: by a division of 64 bits where n has no more.
#[inline(always)]
fn divide(n: u128, d: u64) -> u128
    requires divisor { 1 ≤ d }
    ensures exact { result ≡ n / d }
{
    if n <= GREATEST {
        u128::from(n as u64 / d)
    } else {
        n / u128::from(d)
    }
}
