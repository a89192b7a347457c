//! Laws of contraction.
//!
//! Each law is a function without effect, whose clauses hold of all values that they name.
ghost use Rattle.std.specs.Prelude.{◌≡◌, ℕ, List, [], ◌∷◌, true, false, Some};
ghost use Rattle.bz_model.specs.Fraction.{Fraction};
ghost use Rattle.bz_model.specs.Spec.{Spec};
ghost use Rattle.class_system.specs.Sound.{IsSound};
ghost use Rattle.fixed_enclosure.specs.UpperValues.{AreAtMost};
ghost use Rattle.rounded_map.specs.RoundedMap.{setting, values_up, IsPostFixed};
ghost use Rattle.rounded_map.specs.Bounding.{AreBelow};
ghost use Rattle.rounded_map.specs.Contracting.{body_slopes};
ghost use Rattle.fast_lower.specs.Contraction.{IsPreFixed, IsContracting, is_pre_fixed};
ghost use Rattle.fast_lower.specs.Contraction.{is_contracting, one_unit_off};
ghost use Rattle.fast_lower.specs.FastVector.{fast_vector};
ghost use Rattle.fast_lower.specs.Examples.{binary_trees, atom};

/// Where a pre-fixed vector is nowhere above a post-fixed one, and the rounded map contracts along
/// some weights at the latter, each entry of the former with one unit taken off is Below for its
/// class. Vector and weights may come from anywhere.
pub fn contracted_vectors_are_below()
    ensures { (s : Spec) (x : Fraction) (F : ℕ) (upper low weights : List ℕ) → IsSound s
        → IsPostFixed (setting s x.num x.den F) upper → AreAtMost low upper
        → IsPreFixed (setting s x.num x.den F) low
        → IsContracting (setting s x.num x.den F) upper weights
        → AreBelow s x F (one_unit_off low) }
{}

/// The greater solution of binary trees at x = 3/16 is pre-fixed, and the rounded map doesn't
/// contract there along 256 units. From the base 2^47 + 256 the fast vector of an atom at x = 1/2
/// is 2^47 - 257.
pub fn worked_contractions()
    ensures greater_pre_fixed { is_pre_fixed (setting binary_trees 3 16 48) (1125899906842624 ∷ [])
        ≡ true }
    ensures greater_slope { body_slopes (setting binary_trees 3 16 48)
        (values_up (setting binary_trees 3 16 48) (1125899906842624 ∷ [])) (256 ∷ []) ≡ Some 384
        ∷ [] }
    ensures greater_refused { is_contracting (setting binary_trees 3 16 48) (1125899906842624 ∷ [])
        (256 ∷ []) ≡ false }
    ensures atom { fast_vector (setting atom 1 2 48) (140737488355584 ∷ [])
        ≡ Some (140737488355071 ∷ []) }
{}
