//! Tables of the partial values of one choice among numbers of parts.
ghost use Rattle.std.specs.Prelude.{◌≡◌, ◌≤◌, IfSome};
ghost use Rattle.bz_model.specs.Fraction.{IsFractionBits};
ghost use Rattle.bz_model.specs.Cell.{IsCell};
ghost use Rattle.series_bounds.specs.ExactSums.{first_term};
ghost use Rattle.count_draw.specs.Kinds.{series_of_kind};
ghost use Rattle.count_draw.specs.Table.{lower_at, upper_at, least_at};

use crate::kind::CountKind;
use crate::partial_sums::CountSums;
use crate::prefix_sums::{LowerRow, UpperRow};
use crate::thresholds::end_of;
use bz_model::cell::{Bounds, Cell};
use std::marker::Model;

/// The lower and upper values, in units of `2^-F`, of the objects with at most i parts, for each i
/// up to a room.
///
/// Those up to 255 parts are kept, as far as the numbers that they are found by have 63 bits, which
/// they have where the bounds of the part are at most 1; others are summed where they are asked.
#[derive(Drop)]
pub struct CountTable<const F: u32> {
    sums: CountSums<F>,
    lower: LowerRow,
    upper: UpperRow,
}

impl<const F: u32> Model for CountTable<F> {
    ghost use Rattle.count_draw.specs.Table.{Filling};
    ghost use Rattle.count_draw.specs.Row.{IsLowerRow, IsUpperRow};

    ghost Value = { Filling };

    ghost view = { λ t. t.sums };

    ghost invariant = { λ t. IsLowerRow F t.sums t.lower × IsUpperRow F t.sums t.upper };
}

impl<const F: u32> CountTable<F> {
    /// The table of a construction from `low` parts on, from bounds of its part and of the whole
    /// node. Takes no memory.
    pub fn fill(kind: CountKind, low: u64, part: Bounds, whole: Bounds, room: u64) -> CountTable<F>
        requires fraction_bits { IsFractionBits F }
        requires first { first_term (series_of_kind kind) ≤ low }
        requires few { low ≤ 64 }
        requires room { room ≤ 1000000 }
        ensures filled { result ≡ record {
          kind = series_of_kind kind;
          low = low;
          part = part;
          whole =
              whole;
          room = room;
        } }
    {
        let sums = CountSums::new(kind, low, part, whole, room);
        let mut lower = LowerRow::empty();
        lower.start(&sums);
        lower.fill(&sums);
        let mut upper = UpperRow::empty();
        upper.start(&sums);
        upper.fill(&sums);
        CountTable { sums, lower, upper }
    }

    /// The lower value of the objects with at most i parts: 0 below the low. Takes no memory.
    pub fn lower(&self, i: u64) -> u64
        requires fraction_bits { IsFractionBits F }
        requires option { i ≤ self.now.room }
        ensures exact { result ≡ lower_at F self.now i }
    {
        match self.lower.value(&self.sums, i) {
            Some(value) => value,
            None => self.sums.lower(i),
        }
    }

    /// The upper value of the objects with at most i parts, at most that of the whole node: 0 below
    /// the low. Takes no memory.
    pub fn upper(&self, i: u64) -> u64
        requires fraction_bits { IsFractionBits F }
        requires option { i ≤ self.now.room }
        ensures exact { result ≡ upper_at F self.now i }
    {
        match self.upper.value(&self.sums, i) {
            Some(value) => value,
            None => self.sums.upper(i),
        }
    }

    /// The least number of parts up to the room whose end lies after every number of the cell;
    /// `None` exactly where there is none. Takes no memory.
    ///
    /// Among the numbers whose values are kept it is found by halves, beyond them by a pass over
    /// the terms.
    pub fn least(&self, cell: Cell) -> Option<u64>
        requires fraction_bits { IsFractionBits F }
        requires cell { IsCell cell.k cell.b }
        ensures exact { result ≡ least_at F self.now cell }
        ensures in_range { IfSome result (λ i. (self.now.low ≤ i) × (i ≤ self.now.room)) }
    {
        let end = end_of(cell, self.sums.whole().hi);
        if let Some(option) = self.lower.least_kept(&self.sums, end) {
            return Some(option);
        }
        if self.sums.room() <= self.lower.run.place {
            return None;
        }
        let mut run = self.lower.run;
        self.sums.least_from(end, &mut run)
    }
}
