//! Derivatives of counted constructions, for a part whose derivative is 1, rounded up.
ghost use Rattle.std.specs.Prelude.{◌≡◌, ◌+◌, ◌*◌, ◌≤◌, Some};
ghost use Rattle.bz_model.specs.Fraction.{IsFractionBits};
ghost use Rattle.class_system.specs.Sound.{IsTextRange};
ghost use Rattle.class_system.specs.Views.{spec_range};
ghost use Rattle.fixed_enclosure.specs.Rounded.{Side, greatest};
ghost use Rattle.series_bounds.specs.Series.{Kind, carried_on};
ghost use Rattle.rounded_map.specs.Derivative.{slope_kind, slope_up};
ghost use Rattle.rounded_map.specs.CountedKinds.{series_of_counted};
ghost use Rattle.rounded_map.specs.SlopeSums.{slope_kept, slope_between};

use class_system::ranges::Range;
use fixed_enclosure::Hi;
use fixed_enclosure::narrow::{fit, power_of_two};
use series_bounds::exp_hi;

/// The three counted constructions.
#[derive(Clone, Copy)]
pub(crate) enum Counted {
    Sequence,
    Set,
    Cycle,
}

/// The derivative of sequences whose parts have the value: with no high the square of their value,
/// else the sum of the numbers j times the power `j - 1`.
pub(crate) fn sequence_slope<const F: u32>(part: u64, range: Range) -> Option<u64>
    requires fraction_bits { IsFractionBits F }
    requires range { IsTextRange 0 (spec_range range) }
    ensures { result ≡ slope_up Kind.Seq F (spec_range range) part }
{
    match range.high {
        Some(high) => slope_sum::<F>(
            Counted::Sequence,
            u64::from(range.low),
            u64::from(high),
            part,
        ),
        None => {
            let value = Hi::<F>(part).seq()?;
            let square = value.mul(value)?;
            Some(square.0)
        }
    }
}

/// The derivative of sets whose parts have the value: with no high the exponential, else its terms
/// with one part less.
pub(crate) fn set_slope<const F: u32>(part: u64, range: Range) -> Option<u64>
    requires fraction_bits { IsFractionBits F }
    requires range { IsTextRange 0 (spec_range range) }
    ensures { result ≡ slope_up Kind.Set F (spec_range range) part }
{
    match range.high {
        Some(high) => slope_sum::<F>(Counted::Set, u64::from(range.low), u64::from(high), part),
        None => {
            let value = exp_hi(Hi::<F>(part))?;
            Some(value.0)
        }
    }
}

/// The derivative of cycles whose parts have the value: with no high the value of sequences, else
/// the powers with one part less.
pub(crate) fn cycle_slope<const F: u32>(part: u64, range: Range) -> Option<u64>
    requires fraction_bits { IsFractionBits F }
    requires range { IsTextRange 1 (spec_range range) }
    ensures { result ≡ slope_up Kind.Cyc F (spec_range range) part }
{
    match range.high {
        Some(high) => slope_sum::<F>(Counted::Cycle, u64::from(range.low), u64::from(high), part),
        None => {
            let value = Hi::<F>(part).seq()?;
            Some(value.0)
        }
    }
}

/// The sum of what the derivative adds from `low` parts to `high` parts.
fn slope_sum<const F: u32>(kind: Counted, low: u64, high: u64, part: u64) -> Option<u64>
    requires fraction_bits { IsFractionBits F }
    requires few { high ≤ 64 }
    ensures { result ≡ slope_between (series_of_counted kind) F low high part }
{
    let mut term = power_of_two(F);
    let mut sum = 0_u128;
    for place in 0..high {
        let fitting = fit(term)?;
        sum += kept(kind, low, place + 1, fitting);
        term = next_term::<F>(kind, part, place, fitting);
    }
    fit(sum)
}

/// What the derivative adds for j parts, from the term of one part less: nothing below `low`.
fn kept(kind: Counted, low: u64, j: u64, term: u64) -> u128
    requires few { j ≤ 64 }
    ensures exact { result ≡ slope_kept (series_of_counted kind) low j term }
    ensures within { result ≤ 64 * greatest }
{
    if j < low {
        return 0;
    }
    match kind {
        Counted::Sequence => u128::from(j) * u128::from(term),
        Counted::Set | Counted::Cycle => u128::from(term),
    }
}

/// The term after this one: those of the exponential for sets, else the powers.
fn next_term<const F: u32>(kind: Counted, part: u64, place: u64, term: u64) -> u128
    requires fraction_bits { IsFractionBits F }
    requires few { place ≤ 64 }
    ensures exact { result ≡ carried_on Side.Up
        (slope_kind (series_of_counted kind)) F part place term }
{
    let scaled = (u128::from(term) * u128::from(part) + (power_of_two(F) - 1)) >> F;
    match kind {
        Counted::Sequence | Counted::Cycle => scaled,
        Counted::Set => (scaled + u128::from(place)) / u128::from(place + 1),
    }
}
