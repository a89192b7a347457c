//! Laws on the order, sums and products of fractions, and on bounds that are passed on.
ghost use Rattle.std.specs.Prelude.{ℕ, ◌*◌, ◌<◌, ◌≤◌, ◌⊎◌, List};
ghost use Rattle.bz_model.specs.Fraction.{Fraction, AtMost, plus, times, one_in};
ghost use Rattle.bz_model.specs.Spec.{Spec};
ghost use Rattle.bz_model.specs.Object.{Object, Belongs};
ghost use Rattle.bz_model.specs.Measures.{weight};
ghost use Rattle.bz_model.specs.Totals.{Above, Below, total, total_by};
ghost use Rattle.bz_model.specs.Ideal.{Upto};
ghost use Rattle.bz_laws.specs.Terms.{AreEqual};

/// Fractions are in order: each is at most itself, the order passes on, and of two one is at most
/// the other.
pub fn fractions_are_in_order()
    ensures itself { (a : Fraction) → AtMost a a }
    ensures passes_on { (a b c : Fraction) → AtMost a b → AtMost b c → AtMost a c }
    ensures total { (a b : Fraction) → AtMost a b ⊎ AtMost b a }
{}

/// Sums and products grow with their arguments, and a product with a list's sum is the sum of the
/// products.
pub fn sums_and_products_grow()
    ensures sum { (a b c d : Fraction) → AtMost a b → AtMost c d → AtMost (plus a c) (plus b d) }
    ensures product { (a b c d : Fraction) → AtMost a b → AtMost c d
        → AtMost (times a c) (times b d) }
    ensures distributes { (x a : Fraction) (os : List Object)
        → AreEqual (times a (total x os)) (total_by (λ o. times a (weight x o)) os) }
{}

/// Between a fraction and a greater one there is a gap of one part in some whole number.
pub fn there_is_a_gap()
    ensures { (a b c : Fraction) → AtMost a b → b.num * c.den < c.num * b.den → (h : ℕ) ×
        (some : 0 < h) × AtMost (plus a (one_in h some)) c }
{}

/// What is at least an upper bound is one, and what is at most a lower bound is one.
pub fn bounds_pass_on()
    ensures above { (s : Spec) (x f g : Fraction) (e : ℕ) → AtMost f g → Above x f (Belongs s e)
        → Above x g (Belongs s e) }
    ensures below { (s : Spec) (x f g : Fraction) (e : ℕ) → AtMost g f → Below x f (Belongs s e)
        → Below x g (Belongs s e) }
    ensures above_upto { (s : Spec) (x f g : Fraction) (e i : ℕ) → AtMost f g
        → Above x f (Upto s e i) → Above x g (Upto s e i) }
    ensures below_upto { (s : Spec) (x f g : Fraction) (e i : ℕ) → AtMost g f
        → Below x f (Upto s e i) → Below x g (Upto s e i) }
{}

/// Some list's total is at most each upper bound, so that no lower bound is above an upper one.
pub fn a_lower_bound_is_at_most_an_upper_one()
    ensures { (s : Spec) (x f g : Fraction) (e : ℕ) → Below x f (Belongs s e)
        → Above x g (Belongs s e) → AtMost f g }
{}
