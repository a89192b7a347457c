//! Laws on chances.
ghost use Rattle.std.specs.Prelude.{◌≡◌, ℕ, ◌<◌};
ghost use Rattle.bz_model.specs.declared.cell.Bounds.{Bounds};
ghost use Rattle.bz_model.specs.Fraction.{Fraction, units};
ghost use Rattle.bz_model.specs.Spec.{Spec};
ghost use Rattle.bz_model.specs.Object.{Object, Belongs};
ghost use Rattle.bz_model.specs.Totals.{Above, Below};
ghost use Rattle.chance_law.specs.declared.scaled.ChanceBounds.{ChanceBounds};
ghost use Rattle.chance_law.specs.Chance.{AreChanceBounds, IsEnclosed};
ghost use Rattle.chance_law.specs.WorkedChances.{half, exactly_one, second_atom, one_half};
ghost use Rattle.chance_law.specs.WorkedChances.{one_eighth, pair, certain};

/// The bounds of a chance enclose it, where `root` bounds the value of the object's class.
pub fn chances_are_enclosed()
    ensures { (s : Spec) (F : ℕ) (x : Fraction) (root : Bounds) (e : ℕ) (o : Object)
        (b : ChanceBounds) → 0 < root.hi → Below x (units F root.lo) (Belongs s e)
        → Above x (units F root.hi) (Belongs s e) → AreChanceBounds F x root o b
        → IsEnclosed s x e o b }
{}

/// An object has one pair of bounds of its chance, from x and the bounds of its class's value.
pub fn an_object_has_one_pair_of_bounds()
    ensures one { (F : ℕ) (x : Fraction) (root : Bounds) (o : Object) (b c : ChanceBounds)
        → AreChanceBounds F x root o b → AreChanceBounds F x root o c → b ≡ c }
{}

/// Worked chances: `1.Z` of `C = Z + Z` at 1/2 has the chance 1/2, and the cycle of two atoms of
/// `C = Cyc=2(Z)` at 1/2 has the chance 1.
pub fn chances_of_worked_objects()
    ensures second { AreChanceBounds 48 half exactly_one second_atom one_half }
    ensures pair { AreChanceBounds 48 half one_eighth pair certain }
{}
