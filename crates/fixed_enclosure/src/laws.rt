//! Upper operations are monotone: with no argument greater there is a value where there was one,
//! and not a greater one.
//!
//! Each law is a function without effect, whose clause holds of all arguments that meet its
//! `requires`.

ghost use Rattle.std.specs.Prelude.{◌≤◌};
ghost use Rattle.fixed_enclosure.specs.Rounded.{add_up, mul_up, seq_up};
ghost use Rattle.fixed_enclosure.specs.UpperValues.{IsNoGreater};

use crate::upper::Hi;

/// The sum `a + b` has an upper value, no greater one, wherever `c + d` has one.
pub fn add_is_monotone<const F: u32>(a: Hi<F>, b: Hi<F>, c: Hi<F>, d: Hi<F>)
    requires no_greater { (a.0 ≤ c.0) × (b.0 ≤ d.0) }
    ensures monotone { IsNoGreater (add_up a.entry.0 b.entry.0) (add_up c.entry.0 d.entry.0) }
{}

/// The product `a * b` has an upper value, no greater one, wherever `c * d` has one.
pub fn mul_is_monotone<const F: u32>(a: Hi<F>, b: Hi<F>, c: Hi<F>, d: Hi<F>)
    requires no_greater { (a.0 ≤ c.0) × (b.0 ≤ d.0) }
    ensures monotone { IsNoGreater (mul_up F a.entry.0 b.entry.0) (mul_up F c.entry.0 d.entry.0) }
{}

/// The sequence of a has an upper value, no greater one, wherever that of b has one.
pub fn seq_is_monotone<const F: u32>(a: Hi<F>, b: Hi<F>)
    requires no_greater { a.0 ≤ b.0 }
    ensures monotone { IsNoGreater (seq_up F a.entry.0) (seq_up F b.entry.0) }
{}
