//! Laws of the table.
//!
//! Each law is a function without effect, whose clauses hold of all values that they name.
ghost use Rattle.std.specs.Prelude.{◌≡◌, ℕ, suc, ◌<◌, ◌≤◌, List, length, Some};
ghost use Rattle.bz_model.specs.Fraction.{Fraction};
ghost use Rattle.bz_model.specs.Spec.{Spec};
ghost use Rattle.bz_model.specs.Oracle.{Encloses};
ghost use Rattle.class_system.specs.Sound.{IsSound};
ghost use Rattle.rounded_map.specs.RoundedMap.{setting, IsPostFixed};
ghost use Rattle.rounded_map.specs.Bounding.{AreBelow};
ghost use Rattle.oracle_memo.specs.Levels.{LieWithin, bound_up, level_bounds, level_bounds_from};

/// From a post-fixed base on, the bounds of each level enclose the nodes' values, and those of a
/// level lie within those of the level before.
pub fn levels_only_narrow()
    ensures enclose { (s : Spec) (x : Fraction) (F : ℕ) (base : List ℕ) (level e : ℕ) → IsSound s
        → 0 < F → IsPostFixed (setting s x.num x.den F) base → 1 ≤ level → e < length s.nodes
        → Encloses s x F e (level_bounds (setting s x.num x.den F) base level e) }
    ensures narrow { (s : Spec) (x : Fraction) (F : ℕ) (base : List ℕ) (level e : ℕ) → IsSound s
        → 0 < F → IsPostFixed (setting s x.num x.den F) base → 1 ≤ level → e < length s.nodes
        → LieWithin (level_bounds (setting s x.num x.den F) base (suc level) e)
        (level_bounds (setting s x.num x.den F) base level e) }
{}

/// From a post-fixed base and a reached start on, the bounds of each level enclose the
/// nodes' values, and those of a level lie within those of the level before.
pub fn levels_from_a_start_only_narrow()
    ensures enclose { (s : Spec) (x : Fraction) (F : ℕ) (base start : List ℕ) (level e : ℕ)
        → IsSound s → 0 < F → IsPostFixed (setting s x.num x.den F) base
        → length start ≡ length s.bodies → AreBelow s x F start → 1 ≤ level → e < length s.nodes
        → Encloses s x F e (level_bounds_from (setting s x.num x.den F) start base level e) }
    ensures narrow { (s : Spec) (x : Fraction) (F : ℕ) (base start : List ℕ) (level e : ℕ)
        → IsSound s → 0 < F → IsPostFixed (setting s x.num x.den F) base
        → length start ≡ length s.bodies → AreBelow s x F start → 1 ≤ level → e < length s.nodes
        → LieWithin (level_bounds_from (setting s x.num x.den F) start base (suc level) e)
        (level_bounds_from (setting s x.num x.den F) start base level e) }
{}

/// From a post-fixed base on each node has an upper value at each level, from whatever start: so
/// its upper bound is this value, and never the greatest number that the table would have in its
/// place.
pub fn the_upper_value_is_always_there()
    ensures { (s : Spec) (x : Fraction) (F : ℕ) (base start : List ℕ) (level e : ℕ) → IsSound s
        → 0 < F → IsPostFixed (setting s x.num x.den F) base → 1 ≤ level → e < length s.nodes
        → (v : ℕ) × (bound_up (setting s x.num x.den F) base level e ≡ Some v)
        × ((level_bounds_from (setting s x.num x.den F) start base level e).hi ≡ v) }
{}
