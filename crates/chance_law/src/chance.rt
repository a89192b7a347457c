//! The chance of an object, by a walk over its tokens.
ghost use Rattle.std.specs.Prelude.{◌≡◌, ℕ, ◌<◌, ◌≤◌, ◌^◌, length, IfOk};
ghost use Rattle.bz_model.specs.Fraction.{ratio, IsFractionBits};
ghost use Rattle.bz_model.specs.Oracle.{Encloses};
ghost use Rattle.object_store.specs.Tokens.{IsOf};
ghost use Rattle.chance_law.specs.Chance.{divided_by_units, AreChanceBounds, IsEnclosed};
ghost use Rattle.chance_law.specs.Scaled.{value, one, IsRoundedDown, IsRoundedUp};
ghost use Rattle.chance_law.specs.Weights.{AreWithin, AreWeightsOf};

use crate::scaled::{ChanceBounds, Scaled};
use crate::weights::Weights;
use bz_model::cell::Bounds;
use bz_model::fraction::Fraction;
use class_system::ids::ClassId;
use class_system::system::System;
use object_store::shape::Shape;
use object_store::walk::Next;
use std::alloc::AllocError;
use well_founded::examination::Founded;

/// Bounds of the chance of an object of class 0: its weight at x over the value of its class.
///
/// `root` has bounds of the value of the class's body, in units of `2^-F`. In labelled mode this is
/// the chance of the shape before it is labelled. It walks over the tokens with a stack of nodes of
/// its own, and fails only where memory runs out.
pub fn chance<const F: u32>(
    founded: &Founded,
    x: Fraction,
    root: Bounds,
    shape: &Shape,
) -> Result<ChanceBounds, AllocError>
    requires fraction_bits { IsFractionBits F }
    requires is_of { IsOf founded.now 0 shape.now.items }
    requires few { length shape.now.items < 2 ^ 32 }
    requires some { 0 < root.hi }
    ensures bounds { IfOk result (λ b. (of : IsOf founded.now 0 shape.now.items)
        → AreChanceBounds F (ratio x.num x.den) root of.object b) }
    ensures enclosed { IfOk result (λ b. (of : IsOf founded.now 0 shape.now.items)
        → Encloses founded.now (ratio x.num x.den) F of.body root
        → IsEnclosed founded.now (ratio x.num x.den) of.body of.object b) }
{
    let rounded_x = Weights::of_x(x);
    let weights = weights_of(founded.system(), rounded_x, shape)?;
    Ok(over_root::<F>(weights, root))
}

/// The lower and the upper weight of a shape of class 0.
fn weights_of(system: &System, x: Weights, shape: &Shape) -> Result<Weights, AllocError>
    requires x_within { AreWithin 256 x }
    requires is_of { IsOf system.now 0 shape.now.items }
    requires few { length shape.now.items < 2 ^ 32 }
    ensures weights { IfOk result (λ w. (of : IsOf system.now 0 shape.now.items)
        → AreWeightsOf x of.object w) }
    ensures within { IfOk result (AreWithin (2 ^ 50)) }
{
    system.known();
    let mut walk = shape.walk(system, ClassId(0))?;
    let mut weights = Weights::one();
    'visits: loop {
        match walk.next()? {
            Next::Node(_, visit) => weights = weights.after(visit, x),
            Next::End => return Ok(weights),
            Next::NoObject => unreachable!(),
        }
    }
}

/// The weights divided by the bounds of the class's value; the upper chance is 1 where the lower
/// bound is 0.
fn over_root<const F: u32>(weights: Weights, root: Bounds) -> ChanceBounds
    requires fraction_bits { IsFractionBits F }
    requires within { AreWithin (2 ^ 50) weights }
    requires some { 0 < root.hi }
    ensures lo { IsRoundedDown (divided_by_units (value weights.lo) F root.hi) result.lo }
    ensures certain { root.lo ≡ 0 → result.hi ≡ one }
    ensures hi { 0 < root.lo
        → IsRoundedUp (divided_by_units (value weights.hi) F root.lo) result.hi }
{
    let lo = weights.lo.times_power(F).over_down(root.hi);
    let hi = if root.lo == 0 {
        Scaled::ONE
    } else {
        weights.hi.times_power(F).over_up(root.lo)
    };
    ChanceBounds { lo, hi }
}
