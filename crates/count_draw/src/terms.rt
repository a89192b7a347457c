//! The terms of a series, one after the other, as long as they are small.
//!
//! From term to term a number is carried: the power of the part's value, and for a set the power
//! over `j!`. It is carried on as long as it is at most 2^63; where the part's value is at most 1,
//! it always is.
ghost use Rattle.std.specs.Prelude.{◌≡◌, ◌^◌, ◌≤◌, IfSome};
ghost use Rattle.bz_model.specs.Fraction.{IsFractionBits};
ghost use Rattle.fixed_enclosure.specs.Rounded.{Side};
ghost use Rattle.series_bounds.specs.Series.{carried_on, term};
ghost use Rattle.series_bounds.specs.Running.{kept};
ghost use Rattle.count_draw.specs.Kinds.{series_of_kind};

use crate::kind::CountKind;
use fixed_enclosure::narrow::power_of_two;

/// The greatest number that is carried on.
const MOST: u128 = 1 << 63;

/// The number carried to term `place + 1` from the one carried to term `place`, rounded down; it
/// may be `None` where it is above 2^63, for a set before it is divided by `place + 1`.
#[inline]
pub(crate) fn carry_down<const F: u32>(kind: CountKind, a: u64, place: u64, c: u64) -> Option<u64>
    requires fraction_bits { IsFractionBits F }
    requires places { place ≤ 1000000 }
    ensures exact { IfSome result (λ d.
        d ≡ carried_on Side.Down (series_of_kind kind) F a place c) }
    ensures small { IfSome result (λ d. d ≤ 2 ^ 63) }
{
    let scaled = small((u128::from(c) * u128::from(a)) >> F)?;
    Some(match kind {
        CountKind::Seq | CountKind::Cyc => scaled,
        CountKind::Set => scaled / (place + 1),
    })
}

/// The number carried to term `place + 1` from the one carried to term `place`, rounded up; it may
/// be `None` where it is above 2^63, for a set before it is divided by `place + 1`.
#[inline]
pub(crate) fn carry_up<const F: u32>(kind: CountKind, a: u64, place: u64, c: u64) -> Option<u64>
    requires fraction_bits { IsFractionBits F }
    requires places { place ≤ 1000000 }
    ensures exact { IfSome result (λ d. d ≡ carried_on Side.Up (series_of_kind kind) F a place c) }
    ensures small { IfSome result (λ d. d ≤ 2 ^ 63) }
{
    let scaled = small((u128::from(c) * u128::from(a) + (power_of_two(F) - 1)) >> F)?;
    Some(match kind {
        CountKind::Seq | CountKind::Cyc => scaled,
        CountKind::Set => (scaled + place) / (place + 1),
    })
}

/// The number, where it is at most 2^63.
#[inline]
fn small(n: u128) -> Option<u64>
    ensures same { IfSome result (λ m. m ≡ n) }
    ensures small { IfSome result (λ m. m ≤ 2 ^ 63) }
{
    if n <= MOST { Some(n as u64) } else { None }
}

/// The term of which c is the number carried to it, rounded down.
#[inline]
pub(crate) fn term_down(kind: CountKind, place: u64, c: u64) -> u64
    ensures exact { result ≡ term Side.Down (series_of_kind kind) place c }
{
    match kind {
        CountKind::Seq | CountKind::Set => c,
        CountKind::Cyc => { if place == 0 { 0 } else { c / place } }
    }
}

/// The term of which c is the number carried to it, rounded up.
#[inline]
pub(crate) fn term_up(kind: CountKind, place: u64, c: u64) -> u64
    requires places { place ≤ 1000000 }
    requires small { c ≤ 2 ^ 63 }
    ensures exact { result ≡ term Side.Up (series_of_kind kind) place c }
{
    match kind {
        CountKind::Seq | CountKind::Set => c,
        CountKind::Cyc => {
            if place == 0 {
                0
            } else {
                (c + (place - 1)) / place
            }
        }
    }
}

/// What a term adds to a sum from `low` on: nothing before `low`.
#[inline]
pub(crate) fn kept_of(low: u64, place: u64, term: u64) -> u64
    ensures exact { result ≡ kept low place term }
{
    if place < low { 0 } else { term }
}
