//! A lower and an upper weight, side by side, each rounded outward.
ghost use Rattle.std.specs.Prelude.{◌≡◌, ℕ, ◌+◌, ◌*◌, ◌^◌, ◌≤◌, length};
ghost use Rattle.bz_model.specs.Fraction.{times, ratio};
ghost use Rattle.chance_law.specs.Scaled.{value, one, IsRoundedDown, IsRoundedUp};

use crate::scaled::Scaled;
use bz_model::fraction::Fraction;
use object_store::visit::Visit;

/// A lower and an upper weight.
#[derive(Clone, Copy)]
pub(crate) struct Weights {
    pub(crate) lo: Scaled,
    pub(crate) hi: Scaled,
}

impl Weights {
    ghost use Rattle.chance_law.specs.Chance.{LeadsDown, LeadsUp};
    ghost use Rattle.chance_law.specs.Factors.{over_two_to};
    ghost use Rattle.chance_law.specs.Weights.{AreWithin, visit_factors};

    /// The weight 1 on both sides.
    pub(crate) fn one() -> Weights
        ensures lo { result.lo ≡ one }
        ensures hi { result.hi ≡ one }
        ensures within { AreWithin 512 result }
    {
        Weights {
            lo: Scaled::ONE,
            hi: Scaled::ONE,
        }
    }

    /// x, rounded down and up.
    pub(crate) fn of_x(x: Fraction) -> Weights
        ensures lo { IsRoundedDown (ratio x.num x.den) result.lo }
        ensures hi { IsRoundedUp (ratio x.num x.den) result.hi }
        ensures within { AreWithin 256 result }
    {
        let num = Scaled::whole(x.num);
        Weights {
            lo: num.over_down(x.den),
            hi: num.over_up(x.den),
        }
    }

    /// The weights after a visit: an atom multiplies by x, a set of k parts divides by 2 to k, and
    /// a cycle of k parts by k.
    pub(crate) fn after(self, visit: Visit, x: Weights) -> Weights
        requires within { AreWithin (2 ^ 50) self }
        requires x_within { AreWithin 256 x }
        ensures down { LeadsDown x.lo self.lo (visit_factors visit) result.lo }
        ensures up { LeadsUp x.hi self.hi (visit_factors visit) result.hi }
        ensures within { (bound : ℕ) → AreWithin bound self
            → AreWithin (bound + 512 * length (visit_factors visit)) result }
    {
        match visit {
            Visit::Atom => self.times(x),
            Visit::Set(parts, _) => self.over_factorial(parts),
            Visit::Cyc(parts, _) => self.over(u64::from(parts)),
            Visit::Class(_) | Visit::Product | Visit::Empty => self,
            Visit::Union(..) | Visit::Seq(..) => self,
        }
    }

    /// The product with x.
    fn times(self, x: Weights) -> Weights
        requires within { AreWithin (2 ^ 60) self }
        requires x_within { AreWithin 256 x }
        ensures lo { IsRoundedDown (times (value self.lo) (value x.lo)) result.lo }
        ensures hi { IsRoundedUp (times (value self.hi) (value x.hi)) result.hi }
        ensures within { (bound : ℕ) → AreWithin bound self → AreWithin (bound + 512) result }
    {
        Weights {
            lo: self.lo.times_down(x.lo),
            hi: self.hi.times_up(x.hi),
        }
    }

    /// One part in a whole number; one part in 0 is all of it.
    fn over(self, number: u64) -> Weights
        requires within { AreWithin (2 ^ 60) self }
        ensures lo { IsRoundedDown (times (value self.lo) (ratio 1 number)) result.lo }
        ensures hi { IsRoundedUp (times (value self.hi) (ratio 1 number)) result.hi }
        ensures within { (bound : ℕ) → AreWithin bound self → AreWithin (bound + 512) result }
    {
        let divisor = number.max(1);
        Weights {
            lo: self.lo.over_down(divisor),
            hi: self.hi.over_up(divisor),
        }
    }

    /// One part in each of 2 to `parts`, one after the other.
    fn over_factorial(self, parts: u32) -> Weights
        requires within { AreWithin (2 ^ 50) self }
        ensures down { (x : Scaled) → LeadsDown x self.lo (over_two_to parts) result.lo }
        ensures up { (x : Scaled) → LeadsUp x self.hi (over_two_to parts) result.hi }
        ensures within { (bound : ℕ) → AreWithin bound self
            → AreWithin (bound + 512 * length (over_two_to parts)) result }
    {
        let mut weights = self;
        for divisor in 2..u64::from(parts) + 1 {
            weights = weights.over(divisor);
        }
        weights
    }
}
