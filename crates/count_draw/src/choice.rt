//! What a cell decides among numbers of parts, by rows of kept values.
ghost use Rattle.std.specs.Prelude.{◌≡◌, ℕ, ◌<◌, ◌≤◌, IfSome, Option};
ghost use Rattle.bz_model.specs.Fraction.{IsFractionBits};
ghost use Rattle.bz_model.specs.Cell.{IsCell};
ghost use Rattle.bz_model.specs.Spec.{IsWithinHigh};
ghost use Rattle.choice_draw.specs.Decision.{least_option, is_reached, choice_of, over_of};
ghost use Rattle.count_draw.specs.Decision.{top_option, chosen_if};
ghost use Rattle.count_draw.specs.Table.{options_of, passed_at};
ghost use Rattle.count_draw.specs.Row.{IsLowerRow, IsUpperRow};

use crate::kind::CountChoice;
use crate::partial_sums::CountSums;
use crate::prefix_sums::{LowerRow, UpperRow};
use crate::thresholds::{begin_of, end_of};
use bz_model::cell::Cell;

/// The greatest number of parts that may be taken: the lesser of the high and the room.
pub(crate) fn top_of(high: Option<u32>, room: u64) -> u64
    ensures exact { result ≡ top_option high room }
{
    match high {
        Some(high) => u64::from(high).min(room),
        None => room,
    }
}

/// What a cell decides among the options of these sums. Where the least option isn't reached, the
/// room doesn't end before the cell either.
#[inline]
pub(crate) fn choose<const F: u32>(
    sums: &CountSums<F>,
    lower: &mut LowerRow,
    upper: &mut UpperRow,
    high: Option<u32>,
    room: u64,
    cell: Cell,
) -> Option<CountChoice>
    requires fraction_bits { IsFractionBits F }
    requires lower { IsLowerRow F sums.now lower.old }
    requires upper { IsUpperRow F sums.now upper.old }
    requires top { sums.now.room ≡ top_option high room }
    requires within { IsWithinHigh sums.now.low high }
    requires cell { IsCell cell.k cell.b }
    ensures lower { IsLowerRow F sums.now lower.new }
    ensures upper { IsUpperRow F sums.now upper.new }
    ensures exact { chosen_if result ≡ choice_of (options_of F sums.now high room) cell }
{
    match least_or_high(sums, lower, high, room, cell) {
        Some(option) => reaches(sums, upper, cell, option).then_some(CountChoice::Take(option)),
        None => over(sums, upper, high, room, cell),
    }
}

/// The least option that passes the first test, or else the high, where it is an option.
#[inline]
fn least_or_high<const F: u32>(
    sums: &CountSums<F>,
    lower: &mut LowerRow,
    high: Option<u32>,
    room: u64,
    cell: Cell,
) -> Option<u64>
    requires fraction_bits { IsFractionBits F }
    requires lower { IsLowerRow F sums.now lower.old }
    requires top { sums.now.room ≡ top_option high room }
    requires within { IsWithinHigh sums.now.low high }
    requires cell { IsCell cell.k cell.b }
    ensures lower { IsLowerRow F sums.now lower.new }
    ensures exact { result ≡ least_option (options_of F sums.now high room) cell }
    ensures in_range { IfSome result (λ i. (sums.now.low ≤ i) × (i ≤ sums.now.room)) }
{
    if let Some(option) = lower.least(sums, end_of(cell, sums.whole().hi)) {
        return Some(option);
    }
    let high = u64::from(high?);
    if high <= room { Some(high) } else { None }
}

/// Whether an option is the first, or no number of the cell lies before the end of the one before
/// it.
#[inline]
fn reaches<const F: u32>(sums: &CountSums<F>, upper: &mut UpperRow, cell: Cell, option: u64) -> bool
    requires fraction_bits { IsFractionBits F }
    requires upper { IsUpperRow F sums.now upper.old }
    requires cell { IsCell cell.k cell.b }
    requires first { sums.now.low ≤ option }
    requires option { option ≤ sums.now.room }
    ensures upper { IsUpperRow F sums.now upper.new }
    ensures exact { (high : Option ℕ) (room : ℕ)
        → is_reached (options_of F sums.now high room) cell option ≡ result }
{
    option == sums.low() || is_passed(sums, upper, cell, option - 1)
}

/// `Over` where options above the room exist, and no number of the cell lies before the room's end.
#[inline]
fn over<const F: u32>(
    sums: &CountSums<F>,
    upper: &mut UpperRow,
    high: Option<u32>,
    room: u64,
    cell: Cell,
) -> Option<CountChoice>
    requires fraction_bits { IsFractionBits F }
    requires upper { IsUpperRow F sums.now upper.old }
    requires top { sums.now.room ≡ top_option high room }
    requires cell { IsCell cell.k cell.b }
    ensures upper { IsUpperRow F sums.now upper.new }
    ensures exact { chosen_if result ≡ over_of (options_of F sums.now high room) cell }
{
    if high.is_some_and(|high| u64::from(high) <= room) {
        return None;
    }
    is_passed(sums, upper, cell, room).then_some(CountChoice::Over)
}

/// Whether no number of the cell lies before the end of option i.
#[inline]
fn is_passed<const F: u32>(sums: &CountSums<F>, upper: &mut UpperRow, cell: Cell, i: u64) -> bool
    requires fraction_bits { IsFractionBits F }
    requires upper { IsUpperRow F sums.now upper.old }
    requires cell { IsCell cell.k cell.b }
    requires option { i ≤ sums.now.room }
    ensures upper { IsUpperRow F sums.now upper.new }
    ensures exact { result ≡ passed_at F sums.now cell i }
{
    upper.is_within(sums, i, begin_of(cell, sums.whole().lo))
}
