//! Laws of the rounded map: where bodies have their values, what values bound, what they are reached
//! by, and that upper values are monotone.
//!
//! Each law is a function without effect, whose clauses hold of all values that they name.
ghost use Rattle.std.specs.Prelude.{◌≡◌, ℕ, suc, ◌<◌, List, length, replicate, Some, IsTrue, ◌↔◌};
ghost use Rattle.bz_model.specs.Fraction.{Fraction};
ghost use Rattle.bz_model.specs.Spec.{Spec};
ghost use Rattle.class_system.specs.Each.{Each};
ghost use Rattle.class_system.specs.Sound.{IsSound};
ghost use Rattle.fixed_enclosure.specs.UpperValues.{AreNoGreater, AreAtMost};
ghost use Rattle.rounded_map.specs.RoundedMap.{Setting, setting, value_at, repeated, values_down};
ghost use Rattle.rounded_map.specs.RoundedMap.{values_up, sweep_down, sweep_up, is_post_fixed};
ghost use Rattle.rounded_map.specs.RoundedMap.{IsPostFixed};
ghost use Rattle.rounded_map.specs.Bounding.{AreAbove, AreAboveWithin, AreBelow, ValuesAbove};
ghost use Rattle.rounded_map.specs.Bounding.{ValuesAboveWithin, ValuesBelow};

/// The body of each class is one of the nodes, so that it has a value where each node has one.
pub fn bodies_are_nodes()
    ensures { (s : Spec) → IsSound s → (bodies : List ℕ) (n : ℕ) → bodies ≡ s.bodies
        → n ≡ length s.nodes → Each (λ body. body < n) bodies }
{}

/// Where the entries bound the classes, the upper values bound the nodes. By height: of one height
/// more; and of height 0 whatever the entries are.
pub fn bounding_entries_give_bounding_values()
    ensures belongs { (s : Spec) (x : Fraction) (F : ℕ) (classes : List ℕ) → IsSound s
        → AreAbove s x F classes → ValuesAbove s x F (values_up (setting s x.num x.den F) classes) }
    ensures height { (s : Spec) (x : Fraction) (F h : ℕ) (classes : List ℕ) → IsSound s
        → AreAboveWithin s x F h classes
        → ValuesAboveWithin s x F (suc h) (values_up (setting s x.num x.den F) classes) }
    ensures height_zero { (s : Spec) (x : Fraction) (F : ℕ) (classes : List ℕ) → IsSound s
        → ValuesAboveWithin s x F 0 (values_up (setting s x.num x.den F) classes) }
{}

/// Where the entries are reached by the classes, the lower values are reached by the nodes.
pub fn reached_entries_give_reached_values()
    ensures { (s : Spec) (x : Fraction) (F : ℕ) (classes : List ℕ) → IsSound s
        → AreBelow s x F classes
        → ValuesBelow s x F (values_down (setting s x.num x.den F) classes) }
{}

/// Where a node has an upper value at one vector it has one, and no greater, at each vector that is
/// nowhere greater.
pub fn upper_values_are_monotone()
    ensures { (t : Setting) (v w : List ℕ) → 0 < t.bits → AreAtMost v w
        → AreNoGreater (values_up t v) (values_up t w) }
{}

/// A post-fixed vector bounds every total, whatever the height of the objects, and so do the upper
/// values at it, of which each node has one.
pub fn post_fixed_vectors_bound_every_total()
    ensures entries { (s : Spec) (x : Fraction) (F : ℕ) (classes : List ℕ) → IsSound s
        → IsPostFixed (setting s x.num x.den F) classes → AreAbove s x F classes }
    ensures values { (s : Spec) (x : Fraction) (F : ℕ) (classes : List ℕ) → IsSound s
        → IsPostFixed (setting s x.num x.den F) classes
        → ValuesAbove s x F (values_up (setting s x.num x.den F) classes) }
    ensures there { (s : Spec) (x : Fraction) (F : ℕ) (classes : List ℕ) → IsSound s
        → IsPostFixed (setting s x.num x.den F) classes → (e : ℕ) → e < length s.nodes
        → (v : ℕ) × (value_at (values_up (setting s x.num x.den F) classes) e ≡ Some v) }
{}

/// An upper sweep keeps what bounds; one of a post-fixed vector is post-fixed and nowhere greater.
pub fn upper_sweeps_keep_bounds()
    ensures above { (s : Spec) (x : Fraction) (F : ℕ) (classes : List ℕ) → IsSound s
        → length classes ≡ length s.bodies → AreAbove s x F classes
        → AreAbove s x F (sweep_up (setting s x.num x.den F) classes) }
    ensures post_fixed { (t : Setting) (classes : List ℕ) → 0 < t.bits → IsPostFixed t classes
        → IsPostFixed t (sweep_up t classes) }
    ensures no_greater { (t : Setting) (classes : List ℕ) → IsPostFixed t classes
        → AreAtMost (sweep_up t classes) classes }
{}

/// A lower sweep keeps what is reached, and the entries after any number of lower sweeps from zero
/// are reached.
pub fn lower_sweeps_are_reached()
    ensures swept { (s : Spec) (x : Fraction) (F : ℕ) (classes : List ℕ) → IsSound s
        → length classes ≡ length s.bodies → AreBelow s x F classes
        → AreBelow s x F (sweep_down (setting s x.num x.den F) classes) }
    ensures from_zero { (s : Spec) (x : Fraction) (F n : ℕ) → IsSound s
        → AreBelow s x F (repeated (sweep_down (setting s x.num x.den F)) n
        (replicate (length s.bodies) 0)) }
{}

/// The test whether a vector is post-fixed and the fact that it is agree on vectors that have an
/// entry for each class, and a vector for which the fact holds is one of these.
pub fn the_test_and_the_fact_agree()
    ensures same { (t : Setting) (classes : List ℕ) → length classes ≡ length t.spec.bodies
        → IsTrue (is_post_fixed t classes) ↔ IsPostFixed t classes }
    ensures length { (t : Setting) (classes : List ℕ) → IsPostFixed t classes
        → length classes ≡ length t.spec.bodies }
{}
