//! Upper values are monotone: with no argument greater there is a value where there was one, and
//! not a greater one.
//!
//! Each law is a function without effect, whose clause holds of all arguments that meet its
//! `requires`. The logarithm's number of terms depends on its argument: where a lesser argument
//! sums fewer terms, its rest is at most one unit, and the greater argument has a further term of
//! at least one.

ghost use Rattle.std.specs.Prelude.{◌≤◌};
ghost use Rattle.bz_model.specs.Fraction.{IsFractionBits};
ghost use Rattle.fixed_enclosure.specs.UpperValues.{IsNoGreater};
ghost use Rattle.series_bounds.specs.Series.{Kind, part_up, range_up, from_up, exp_up, log_up};

use fixed_enclosure::Hi;

/// The exponential of a has an upper value, no greater one, wherever that of b has one.
pub fn exp_is_monotone<const F: u32>(a: Hi<F>, b: Hi<F>)
    requires no_greater { a.0 ≤ b.0 }
    ensures monotone { IsNoGreater (exp_up F a.entry.0) (exp_up F b.entry.0) }
{}

/// The logarithm of a has an upper value, no greater one, wherever that of b has one.
pub fn log_is_monotone<const F: u32>(a: Hi<F>, b: Hi<F>)
    requires fraction_bits { IsFractionBits F }
    requires no_greater { a.0 ≤ b.0 }
    ensures monotone { IsNoGreater (log_up F a.entry.0) (log_up F b.entry.0) }
{}

/// The value from `low` to `i` with a cap is no greater for a part and a cap that are no greater.
pub fn part_is_monotone<const F: u32>(a: Hi<F>, b: Hi<F>, low: u64, i: u64, c: Hi<F>, d: Hi<F>)
    requires no_greater { (a.0 ≤ b.0) × (c.0 ≤ d.0) }
    ensures sequences { part_up Kind.Seq F a.entry.0 low i c.entry.0
        ≤ part_up Kind.Seq F b.entry.0 low i d.entry.0 }
    ensures sets { part_up Kind.Set F a.entry.0 low i c.entry.0 ≤ part_up Kind.Set F b.entry.0 low i
        d.entry.0 }
    ensures cycles { part_up Kind.Cyc F a.entry.0 low i c.entry.0 ≤ part_up Kind.Cyc F b.entry.0 low
        i d.entry.0 }
{}

/// The value from `low` to `i` of a is there, and no greater, wherever that of b is there.
pub fn range_is_monotone<const F: u32>(a: Hi<F>, b: Hi<F>, low: u64, i: u64)
    requires no_greater { a.0 ≤ b.0 }
    ensures sequences { IsNoGreater (range_up Kind.Seq F a.entry.0 low i)
        (range_up Kind.Seq F b.entry.0 low i) }
    ensures sets { IsNoGreater (range_up Kind.Set F a.entry.0 low i)
        (range_up Kind.Set F b.entry.0 low i) }
    ensures cycles { IsNoGreater (range_up Kind.Cyc F a.entry.0 low i)
        (range_up Kind.Cyc F b.entry.0 low i) }
{}

/// The value from `low` on of a is there, and no greater, wherever that of b is there.
pub fn from_is_monotone<const F: u32>(a: Hi<F>, b: Hi<F>, low: u64)
    requires fraction_bits { IsFractionBits F }
    requires no_greater { a.0 ≤ b.0 }
    ensures sequences { IsNoGreater (from_up Kind.Seq F a.entry.0 low)
        (from_up Kind.Seq F b.entry.0 low) }
    ensures sets { IsNoGreater (from_up Kind.Set F a.entry.0 low)
        (from_up Kind.Set F b.entry.0 low) }
    ensures cycles { IsNoGreater (from_up Kind.Cyc F a.entry.0 low)
        (from_up Kind.Cyc F b.entry.0 low) }
{}
