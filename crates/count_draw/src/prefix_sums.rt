//! Rows of kept values: those of the first options, kept as they are found.
ghost use Rattle.std.specs.Prelude.{◌≡◌, ◌+◌, ◌<◌, ◌≤◌, IfSome, IfNone, IsTrue, nat_le};
ghost use Rattle.bz_model.specs.Fraction.{IsFractionBits};
ghost use Rattle.fixed_enclosure.specs.Rounded.{Side};
ghost use Rattle.count_draw.specs.Table.{lower_at, upper_at, least_reaching, IsRun, NoneReaches};
ghost use Rattle.count_draw.specs.Table.{IsBracket};
ghost use Rattle.count_draw.specs.Row.{IsLowerRow, IsUpperRow, NoneKept};

use crate::partial_sums::{Bracket, CountSums, Run};

/// How many values a row has place for.
const PLACES: usize = 256;

/// The last place of a row.
const LAST: u64 = 255;

/// The lower values of the first options, up to the place of a run of the lower terms.
#[derive(Drop)]
pub(crate) struct LowerRow {
    pub(crate) values: [u64; 256],
    pub(crate) run: Run,
    // Where the last search that found no option ended.
    pub(crate) far: Run,
}

impl LowerRow {
    /// A row that keeps nothing yet.
    pub(crate) fn empty() -> LowerRow {
        LowerRow {
            values: [0; PLACES],
            run: Run::nowhere(),
            far: Run::nowhere(),
        }
    }

    /// Begins anew, with the value of option 0.
    pub(crate) fn start<const F: u32>(&mut self, sums: &CountSums<F>)
        requires fraction_bits { IsFractionBits F }
        ensures row { IsLowerRow F sums.now self.new }
    {
        let run = sums.start_down();
        self.values[0] = run.sum;
        self.run = run;
        self.far = run;
    }

    /// The lower value of an option, where it is kept.
    #[inline]
    pub(crate) fn value<const F: u32>(&self, sums: &CountSums<F>, i: u64) -> Option<u64>
        requires row { IsLowerRow F sums.now self.now }
        ensures kept { IfSome result (λ v. v ≡ lower_at F sums.now i) }
        ensures beyond { IfNone result (self.now.run.place < i) }
    {
        if i <= self.run.place {
            Some(self.values[i as usize])
        } else {
            None
        }
    }

    /// The least option up to the room whose lower value is at least `v`. The values that it comes
    /// past are kept.
    #[inline]
    pub(crate) fn least<const F: u32>(&mut self, sums: &CountSums<F>, v: u64) -> Option<u64>
        requires fraction_bits { IsFractionBits F }
        requires row { IsLowerRow F sums.now self.old }
        ensures row { IsLowerRow F sums.now self.new }
        ensures exact { result ≡ least_reaching F sums.now v }
        ensures in_range { IfSome result (λ i. (sums.now.low ≤ i) × (i ≤ sums.now.room)) }
    {
        self.grow_to(sums, v);
        if let Some(option) = self.least_kept(sums, v) {
            return Some(option);
        }
        if sums.room() <= self.run.place {
            return None;
        }
        self.least_beyond(sums, v)
    }

    /// Keeps further values, up to one that is at least `v`, that of the room, the last place, or
    /// one that all later ones are equal to.
    #[inline]
    fn grow_to<const F: u32>(&mut self, sums: &CountSums<F>, v: u64)
        requires fraction_bits { IsFractionBits F }
        requires row { IsLowerRow F sums.now self.old }
        ensures row { IsLowerRow F sums.now self.new }
    {
        let most = sums.room().min(LAST);
        'terms: while self.run.sum < v && self.run.place < most && self.run.power > 0 {
            if !self.keep_next(sums) {
                return;
            }
        }
    }

    /// Keeps all values up to an option's, or the last place.
    pub(crate) fn fill<const F: u32>(&mut self, sums: &CountSums<F>)
        requires fraction_bits { IsFractionBits F }
        requires row { IsLowerRow F sums.now self.old }
        ensures row { IsLowerRow F sums.now self.new }
    {
        'terms: while self.run.place < LAST {
            if !self.keep_next(sums) {
                return;
            }
        }
    }

    /// Keeps the next value, and tells whether it was there: the numbers of its term may not be
    /// small.
    fn keep_next<const F: u32>(&mut self, sums: &CountSums<F>) -> bool
        requires fraction_bits { IsFractionBits F }
        requires row { IsLowerRow F sums.now self.old }
        requires places { self.old.run.place < 255 }
        ensures row { IsLowerRow F sums.now self.new }
        ensures next { IsTrue result → self.new.run.place ≡ self.old.run.place + 1 }
    {
        match sums.next_down(self.run) {
            Some(next) => {
                self.values[next.place as usize] = next.sum;
                self.run = next;
                true
            }
            None => false,
        }
    }

    /// The least option up to the room whose lower value is kept and is at least `v`.
    #[inline]
    pub(crate) fn least_kept<const F: u32>(&self, sums: &CountSums<F>, v: u64) -> Option<u64>
        requires row { IsLowerRow F sums.now self.now }
        ensures found { IfSome result (λ i. least_reaching F sums.now v ≡ Some i) }
        ensures in_range { IfSome result (λ i. (sums.now.low ≤ i) × (i ≤ sums.now.room)) }
        ensures none { IfNone result (NoneKept F sums.now v self.now.run.place) }
    {
        let from = sums.low();
        let to = sums.room().min(self.run.place);
        if to < from || self.values[to as usize] < v {
            return None;
        }
        Some(self.least_between(sums, v, Bracket { from, to }))
    }

    /// The least option whose lower value is at least `v`, among kept ones, found by halves.
    #[inline]
    fn least_between<const F: u32>(&self, sums: &CountSums<F>, v: u64, bracket: Bracket) -> u64
        requires row { IsLowerRow F sums.now self.now }
        requires bracket { IsBracket F sums.now v bracket.from bracket.to }
        requires kept { bracket.to ≤ self.now.run.place }
        ensures exact { least_reaching F sums.now v ≡ Some result }
        ensures in_range { (sums.now.low ≤ result) × (result ≤ sums.now.room) }
    {
        let _low = sums.low();
        let mut from = bracket.from;
        let mut to = bracket.to;
        'halves: while from < to {
            let middle = from + (to - from) / 2;
            if self.values[middle as usize] < v {
                from = middle + 1;
            } else {
                to = middle;
            }
        }
        to
    }

    /// The least option whose lower value is at least `v`, where none of the kept ones is.
    fn least_beyond<const F: u32>(&mut self, sums: &CountSums<F>, v: u64) -> Option<u64>
        requires fraction_bits { IsFractionBits F }
        requires row { IsLowerRow F sums.now self.old }
        requires none { NoneKept F sums.now v self.old.run.place }
        requires further { self.old.run.place < sums.now.room }
        ensures row { IsLowerRow F sums.now self.new }
        ensures exact { result ≡ least_reaching F sums.now v }
        ensures in_range { IfSome result (λ i. (sums.now.low ≤ i) × (i ≤ sums.now.room)) }
    {
        let mut run = self.start_for(sums, v);
        if sums.room() < run.place {
            return None;
        }
        let found = sums.least_from(v, &mut run);
        if found.is_none() {
            self.far = run;
        }
        found
    }

    /// A run before whose place no option reaches `v`.
    fn start_for<const F: u32>(&self, sums: &CountSums<F>, v: u64) -> Run
        requires row { IsLowerRow F sums.now self.now }
        requires none { NoneKept F sums.now v self.now.run.place }
        requires further { self.now.run.place < sums.now.room }
        ensures run { IsRun Side.Down F sums.now result.place result.power result.sum }
        ensures before { NoneReaches F sums.now v result.place }
    {
        let _low = sums.low();
        if self.far.sum < v { self.far } else { self.run }
    }
}

/// The upper values of the first options, up to the place of a run of the upper terms.
#[derive(Drop)]
pub(crate) struct UpperRow {
    pub(crate) values: [u64; 256],
    pub(crate) run: Run,
}

impl UpperRow {
    /// A row that keeps nothing yet.
    pub(crate) fn empty() -> UpperRow {
        UpperRow {
            values: [0; PLACES],
            run: Run::nowhere(),
        }
    }

    /// Begins anew, with the value of option 0.
    pub(crate) fn start<const F: u32>(&mut self, sums: &CountSums<F>)
        requires fraction_bits { IsFractionBits F }
        ensures row { IsUpperRow F sums.now self.new }
    {
        let run = sums.start_up();
        self.values[0] = run.sum;
        self.run = run;
    }

    /// The upper value of an option, where it is kept.
    #[inline]
    pub(crate) fn value<const F: u32>(&self, sums: &CountSums<F>, i: u64) -> Option<u64>
        requires row { IsUpperRow F sums.now self.now }
        ensures kept { IfSome result (λ v. v ≡ upper_at F sums.now i) }
        ensures beyond { IfNone result (self.now.run.place < i) }
    {
        if i <= self.run.place {
            Some(self.values[i as usize])
        } else {
            None
        }
    }

    /// Whether the upper value of an option is at most `u`. The values that it comes past are kept.
    #[inline]
    pub(crate) fn is_within<const F: u32>(&mut self, sums: &CountSums<F>, i: u64, u: u64) -> bool
        requires fraction_bits { IsFractionBits F }
        requires row { IsUpperRow F sums.now self.old }
        requires option { i ≤ sums.now.room }
        ensures row { IsUpperRow F sums.now self.new }
        ensures exact { result ≡ nat_le (upper_at F sums.now i) u }
    {
        self.grow_to(sums, i, u);
        match self.value(sums, i) {
            Some(value) => value <= u,
            None => sums.stays_within(u, self.run, i),
        }
    }

    /// Keeps further values, up to one that is above `u`, the option's, or the last place.
    #[inline]
    fn grow_to<const F: u32>(&mut self, sums: &CountSums<F>, i: u64, u: u64)
        requires fraction_bits { IsFractionBits F }
        requires row { IsUpperRow F sums.now self.old }
        ensures row { IsUpperRow F sums.now self.new }
    {
        let most = i.min(LAST);
        'terms: while self.run.sum <= u && self.run.place < most {
            if !self.keep_next(sums) {
                return;
            }
        }
    }

    /// Keeps all values up to an option's, or the last place.
    pub(crate) fn fill<const F: u32>(&mut self, sums: &CountSums<F>)
        requires fraction_bits { IsFractionBits F }
        requires row { IsUpperRow F sums.now self.old }
        ensures row { IsUpperRow F sums.now self.new }
    {
        'terms: while self.run.place < LAST {
            if !self.keep_next(sums) {
                return;
            }
        }
    }

    /// Keeps the next value, and tells whether it was there: the numbers of its term may not be
    /// small.
    fn keep_next<const F: u32>(&mut self, sums: &CountSums<F>) -> bool
        requires fraction_bits { IsFractionBits F }
        requires row { IsUpperRow F sums.now self.old }
        requires places { self.old.run.place < 255 }
        ensures row { IsUpperRow F sums.now self.new }
        ensures next { IsTrue result → self.new.run.place ≡ self.old.run.place + 1 }
    {
        match sums.next_up(self.run) {
            Some(next) => {
                self.values[next.place as usize] = next.sum;
                self.run = next;
                true
            }
            None => false,
        }
    }
}
