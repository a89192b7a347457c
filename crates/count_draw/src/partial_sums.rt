//! The partial values of one choice among numbers of parts, summed where they are asked.
ghost use Rattle.std.specs.Prelude.{◌≡◌, ◌+◌, ◌^◌, ◌<◌, ◌≤◌, None, IfSome, IfNone, nat_le};
ghost use Rattle.bz_model.specs.Fraction.{IsFractionBits};
ghost use Rattle.fixed_enclosure.specs.Rounded.{Side};
ghost use Rattle.series_bounds.specs.Series.{part_down, part_up};
ghost use Rattle.series_bounds.specs.ExactSums.{first_term};
ghost use Rattle.count_draw.specs.Kinds.{series_of_kind};
ghost use Rattle.count_draw.specs.Table.{lower_at, upper_at, reaches_at, least_reaching, IsBracket};
ghost use Rattle.count_draw.specs.Table.{IsRun, NoneReaches};

use crate::kind::CountKind;
use crate::terms::{carry_down, carry_up, kept_of, term_down, term_up};
use bz_model::cell::Bounds;
use fixed_enclosure::narrow::power_of_two;
use fixed_enclosure::{Hi, Lo};
use series_bounds::{cyc_part_hi, cyc_part_lo, seq_part_hi, seq_part_lo, set_part_hi, set_part_lo};
use std::marker::Model;

/// The lower and upper values, in units of `2^-F`, of the objects with at most i parts, for each i
/// up to a room: each is summed anew.
#[derive(Debug, Drop)]
pub(crate) struct CountSums<const F: u32> {
    kind: CountKind,
    low: u64,
    part: Bounds,
    whole: Bounds,
    room: u64,
}

impl<const F: u32> Model for CountSums<F> {
    ghost use Rattle.count_draw.specs.Kinds.{series_of_kind};
    ghost use Rattle.count_draw.specs.Table.{Filling, IsFilling};

    ghost Value = { Filling };

    ghost view = { λ t. record {
      kind = series_of_kind t.kind;
      low = t.low;
      part = t.part;
      whole = t.whole;
      room =
          t.room;
    } };

    ghost invariant = { λ t. IsFilling (record {
      kind = series_of_kind t.kind;
      low = t.low;
      part = t.part;
      whole =
          t.whole;
      room = t.room;
    }) };
}

impl<const F: u32> CountSums<F> {
    /// The sums of a construction from `low` parts on, from bounds of its part and of the whole
    /// node. Takes no memory.
    pub(crate) fn new(
        kind: CountKind,
        low: u64,
        part: Bounds,
        whole: Bounds,
        room: u64,
    ) -> CountSums<F>
        requires fraction_bits { IsFractionBits F }
        requires first { first_term (series_of_kind kind) ≤ low }
        requires few { low ≤ 64 }
        requires room { room ≤ 1000000 }
        ensures filled { result ≡ record {
          kind = series_of_kind kind;
          low = low;
          part = part;
          whole =
              whole;
          room = room;
        } }
    {
        CountSums {
            kind,
            low,
            part,
            whole,
            room,
        }
    }

    /// The construction.
    pub(crate) fn kind(&self) -> CountKind
        ensures { series_of_kind result ≡ self.now.kind }
    {
        self.kind
    }

    /// The least number of parts.
    pub(crate) fn low(&self) -> u64
        ensures first { result ≡ self.now.low }
        ensures few { result ≤ 64 }
    {
        self.low
    }

    /// The bounds of the part.
    pub(crate) fn part(&self) -> Bounds
        ensures { result ≡ self.now.part }
    {
        self.part
    }

    /// The bounds of the whole node.
    pub(crate) fn whole(&self) -> Bounds
        ensures { result ≡ self.now.whole }
    {
        self.whole
    }

    /// The greatest number of parts that is asked.
    pub(crate) fn room(&self) -> u64
        ensures asked { result ≡ self.now.room }
        ensures small { result ≤ 1000000 }
    {
        self.room
    }

    /// The lower value of the objects with at most i parts: 0 below the low. Takes no memory.
    pub(crate) fn lower(&self, i: u64) -> u64
        requires fraction_bits { IsFractionBits F }
        requires option { i ≤ self.now.room }
        ensures exact { result ≡ lower_at F self.now i }
    {
        lower_value::<F>(self.kind, self.part.lo, self.low, i)
    }

    /// The upper value of the objects with at most i parts, at most that of the whole node: 0 below
    /// the low. Takes no memory.
    pub(crate) fn upper(&self, i: u64) -> u64
        requires fraction_bits { IsFractionBits F }
        requires option { i ≤ self.now.room }
        ensures exact { result ≡ upper_at F self.now i }
    {
        upper_value::<F>(self.kind, self.part.hi, self.low, i, self.whole.hi)
    }

    /// The run of the lower terms at its first.
    pub(crate) fn start_down(&self) -> Run
        requires fraction_bits { IsFractionBits F }
        ensures run { IsRun Side.Down F self.now result.place result.power result.sum }
        ensures first { result.place ≡ 0 }
    {
        let power = power_of_two(F) as u64;
        Run {
            place: 0,
            power,
            sum: kept_of(self.low, 0, term_down(self.kind, 0, power)),
        }
    }

    /// The run of the lower terms, one term on; `None` may come where numbers aren't small.
    #[inline]
    pub(crate) fn next_down(&self, run: Run) -> Option<Run>
        requires fraction_bits { IsFractionBits F }
        requires run { IsRun Side.Down F self.now run.place run.power run.sum }
        requires places { run.place < 1000000 }
        ensures run { IfSome result (λ r. IsRun Side.Down F self.now r.place r.power r.sum) }
        ensures next { IfSome result (λ r. r.place ≡ run.place + 1) }
    {
        let power = carry_down::<F>(self.kind, self.part.lo, run.place, run.power)?;
        let place = run.place + 1;
        let term = term_down(self.kind, place, power);
        let sum = run.sum.saturating_add(kept_of(self.low, place, term));
        Some(Run { place, power, sum })
    }

    /// The run of the upper terms at its first.
    pub(crate) fn start_up(&self) -> Run
        requires fraction_bits { IsFractionBits F }
        ensures run { IsRun Side.Up F self.now result.place result.power result.sum }
        ensures first { result.place ≡ 0 }
    {
        let power = power_of_two(F) as u64;
        let first = kept_of(self.low, 0, term_up(self.kind, 0, power));
        Run {
            place: 0,
            power,
            sum: first.min(self.whole.hi),
        }
    }

    /// The run of the upper terms, one term on; `None` may come where numbers aren't small.
    #[inline]
    pub(crate) fn next_up(&self, run: Run) -> Option<Run>
        requires fraction_bits { IsFractionBits F }
        requires run { IsRun Side.Up F self.now run.place run.power run.sum }
        requires places { run.place < 1000000 }
        ensures run { IfSome result (λ r. IsRun Side.Up F self.now r.place r.power r.sum) }
        ensures next { IfSome result (λ r. r.place ≡ run.place + 1) }
    {
        let power = carry_up::<F>(self.kind, self.part.hi, run.place, run.power)?;
        let place = run.place + 1;
        let term = term_up(self.kind, place, power);
        let sum = run.sum.saturating_add(kept_of(self.low, place, term));
        let sum = sum.min(self.whole.hi);
        Some(Run { place, power, sum })
    }

    /// The least option whose lower value is at least `v`, where none before the run's place is
    /// one: a pass over the terms, up to one of which all later ones are 0. The run goes along.
    pub(crate) fn least_from(&self, v: u64, run: &mut Run) -> Option<u64>
        requires fraction_bits { IsFractionBits F }
        requires run { IsRun Side.Down F self.now run.old.place run.old.power run.old.sum }
        requires room { run.old.place ≤ self.now.room }
        requires before { NoneReaches F self.now v run.old.place }
        ensures run { IsRun Side.Down F self.now run.new.place run.new.power run.new.sum }
        ensures exact { result ≡ least_reaching F self.now v }
        ensures in_range { IfSome result (λ i. (self.now.low ≤ i) × (i ≤ self.now.room)) }
    {
        'terms: loop {
            if run.place >= self.low {
                if v <= run.sum {
                    return Some(run.place);
                }
                if run.power == 0 {
                    return None;
                }
            }
            if run.place >= self.room {
                return None;
            }
            match self.next_down(*run) {
                Some(next) => *run = next,
                None => return self.least_by_steps(v),
            }
        }
    }

    /// The least option whose lower value is at least `v`, where each value is summed anew.
    fn least_by_steps(&self, v: u64) -> Option<u64>
        requires fraction_bits { IsFractionBits F }
        ensures exact { result ≡ least_reaching F self.now v }
        ensures in_range { IfSome result (λ i. (self.now.low ≤ i) × (i ≤ self.now.room)) }
    {
        let bracket = self.bracket(v)?;
        Some(self.least_between(v, bracket))
    }

    /// Options between which the least lies, found by steps of doubling length from the low on.
    fn bracket(&self, v: u64) -> Option<Bracket>
        requires fraction_bits { IsFractionBits F }
        ensures found { IfSome result (λ r. IsBracket F self.now v r.from r.to) }
        ensures none { IfNone result (least_reaching F self.now v ≡ None) }
    {
        if self.room < self.low {
            return None;
        }
        let mut from = self.low;
        let mut to = self.low;
        'steps: loop {
            if self.reaches(v, to) {
                return Some(Bracket { from, to });
            }
            if to >= self.room {
                return None;
            }
            from = to + 1;
            to = (2 * from - self.low - 1).min(self.room);
        }
    }

    /// The least option that reaches `v`, found by halves.
    fn least_between(&self, v: u64, bracket: Bracket) -> u64
        requires fraction_bits { IsFractionBits F }
        requires bracket { IsBracket F self.now v bracket.from bracket.to }
        ensures exact { least_reaching F self.now v ≡ Some result }
        ensures in_range { (self.now.low ≤ result) × (result ≤ self.now.room) }
    {
        let mut from = bracket.from;
        let mut to = bracket.to;
        'halves: while from < to {
            let middle = from + (to - from) / 2;
            if self.reaches(v, middle) {
                to = middle;
            } else {
                from = middle + 1;
            }
        }
        to
    }

    /// Whether the lower value of option i is at least `v`.
    fn reaches(&self, v: u64, i: u64) -> bool
        requires fraction_bits { IsFractionBits F }
        requires option { i ≤ self.now.room }
        ensures exact { result ≡ reaches_at F self.now v i }
    {
        v <= self.lower(i)
    }

    /// Whether the upper value of option i is at most `u`: a pass over the terms from a run on, up
    /// to one at which it isn't.
    pub(crate) fn stays_within(&self, u: u64, start: Run, i: u64) -> bool
        requires fraction_bits { IsFractionBits F }
        requires run { IsRun Side.Up F self.now start.place start.power start.sum }
        requires later { start.place ≤ i }
        requires option { i ≤ self.now.room }
        ensures exact { result ≡ nat_le (upper_at F self.now i) u }
    {
        let _most = self.room();
        let mut run = start;
        'terms: while run.place < i {
            if u < run.sum {
                return false;
            }
            match self.next_up(run) {
                Some(next) if run.power > 1 => run = next,
                _ => return self.upper(i) <= u,
            }
        }
        run.sum <= u
    }
}

/// A place in the terms of one side, the number carried to it, and the sum up to it.
#[derive(Clone, Copy)]
pub(crate) struct Run {
    pub(crate) place: u64,
    pub(crate) power: u64,
    pub(crate) sum: u64,
}

impl Run {
    /// A run at nothing.
    pub(crate) fn nowhere() -> Run {
        Run {
            place: 0,
            power: 0,
            sum: 0,
        }
    }
}

/// The options from one on that may be the least that reaches a value, up to one that does.
#[derive(Clone, Copy)]
pub(crate) struct Bracket {
    pub(crate) from: u64,
    pub(crate) to: u64,
}

/// The lower sum of the terms from `low` to `i`.
fn lower_value<const F: u32>(kind: CountKind, a: u64, low: u64, i: u64) -> u64
    requires fraction_bits { IsFractionBits F }
    requires first { first_term (series_of_kind kind) ≤ low }
    requires few { low ≤ 64 }
    requires option { i ≤ 1000000 }
    ensures exact { result ≡ part_down (series_of_kind kind) F a low i }
{
    let sum = match kind {
        CountKind::Seq => seq_part_lo(Lo::<F>(a), low, i),
        CountKind::Set => set_part_lo(Lo::<F>(a), low, i),
        CountKind::Cyc => cyc_part_lo(Lo::<F>(a), low, i),
    };
    sum.0
}

/// The upper sum of the terms from `low` to `i`, at most the cap.
fn upper_value<const F: u32>(kind: CountKind, a: u64, low: u64, i: u64, cap: u64) -> u64
    requires fraction_bits { IsFractionBits F }
    requires first { first_term (series_of_kind kind) ≤ low }
    requires few { low ≤ 64 }
    requires option { i ≤ 1000000 }
    ensures exact { result ≡ part_up (series_of_kind kind) F a low i cap }
{
    let sum = match kind {
        CountKind::Seq => seq_part_hi(Hi::<F>(a), low, i, Hi(cap)),
        CountKind::Set => set_part_hi(Hi::<F>(a), low, i, Hi(cap)),
        CountKind::Cyc => cyc_part_hi(Hi::<F>(a), low, i, Hi(cap)),
    };
    sum.0
}
