//! Laws on growth: what a step of the parts adds to a node, and which vectors a contraction
//! reaches.
//!
//! Each law is a function without effect, whose clauses hold of all values that they name.
ghost use Rattle.std.specs.Prelude.{◌≡◌, ℕ, suc, ◌-◌, ◌<◌, ◌≤◌, List, length, slice_index, is_some};
ghost use Rattle.std.specs.Prelude.{Bool, IsTrue, Option, Some};
ghost use Rattle.std.specs.List.{AllByRecursion};
ghost use Rattle.bz_model.specs.Fraction.{Fraction, AtMost, plus, times, units, sum_from};
ghost use Rattle.bz_model.specs.Spec.{Spec, Node, body_of};
ghost use Rattle.bz_model.specs.Object.{Belongs};
ghost use Rattle.bz_model.specs.Totals.{Above, Below, total_by};
ghost use Rattle.bz_laws.specs.Terms.{term_of, product_by};
ghost use Rattle.bz_laws.specs.Sound.{IsLaidOut};
ghost use Rattle.bz_laws.specs.Values.{AreReached, Covers};
ghost use Rattle.class_system.specs.Sound.{IsSound};
ghost use Rattle.rounded_map.specs.RoundedMap.{Setting, value_at, amount};
ghost use Rattle.rounded_map.specs.Derivative.{derivatives_up};
ghost use Rattle.fast_lower.specs.Growth.{term_growth, product_growth, CoversGrowth};
ghost use Rattle.fast_lower.specs.Close.{IsNear};

/// Where b is at most a plus a step, and neither a nor b is above c, what a node makes of b is at
/// most what it makes of a plus its growth at c along the step.
pub fn numbers_grow_by_their_slopes()
    ensures terms { (node : Node) (t a b c d : Fraction) (j n : ℕ) → IsNear t a b c d
        → AtMost (sum_from (term_of node b) j n) (plus (sum_from (term_of node a) j n)
        (times (sum_from (term_growth node c) j n) (times t d))) }
    ensures sums { (a b c d : ℕ → Fraction) (t : Fraction) (parts : List ℕ)
        → AllByRecursion (λ p. IsNear t (a p) (b p) (c p) (d p)) parts
        → AtMost (total_by b parts) (plus (total_by a parts) (times t (total_by d parts))) }
    ensures products { (a b c d : ℕ → Fraction) (t f : Fraction) (parts : List ℕ)
        → AllByRecursion (λ p. IsNear t (a p) (b p) (c p) (d p)) parts
        → AtMost (times f (product_by b parts)) (plus (times f (product_by a parts))
        (times t (product_growth c d f parts))) }
{}

/// Where no lower entry is above the upper one, no node's lower number is above its upper one.
pub fn reached_numbers_are_at_most_covering_ones()
    ensures { (s : Spec) (x : Fraction) (told : ℕ → Bool)
        (low_entry high_entry low_value high_value : ℕ → Fraction) → IsLaidOut s
        → AreReached s x low_entry low_value → Covers s x told high_entry high_value
        → ((c : ℕ) → AtMost (low_entry c) (high_entry c)) → (e : ℕ) → e < length s.nodes
        → IsTrue (told e) → AtMost (low_value e) (high_value e) }
{}

/// Where no entry of a vector is above its body's number, and each body grows along the weights by
/// less than the class's weight, the entries with one unit taken off are reached.
pub fn contracting_vectors_are_reached()
    ensures { (s : Spec) (x : Fraction) (told : ℕ → Bool) (F : ℕ) (low weight : ℕ → ℕ)
        (low_value high_value growth : ℕ → Fraction) (most most_low : ℕ) → IsLaidOut s
        → AreReached s x (λ c. units F (low c)) low_value
        → CoversGrowth s told (λ c. units F (weight c)) high_value growth
        → ((e : ℕ) → e < length s.nodes → Above x (high_value e) (Belongs s e))
        → ((e : ℕ) → e < length s.nodes → AtMost (low_value e) (high_value e))
        → ((c body : ℕ) → body_of s c ≡ Some body → IsTrue (told body))
        → ((c body : ℕ) → body_of s c ≡ Some body → AtMost (units F (low c)) (low_value body))
        → ((c body : ℕ) → body_of s c ≡ Some body
        → AtMost (growth body) (units F (weight c - 1)))
        → ((c body : ℕ) → body_of s c ≡ Some body → 0 < weight c)
        → ((c : ℕ) → weight c ≤ suc most) → ((c : ℕ) → low c ≤ most_low)
        → (c body : ℕ) → body_of s c ≡ Some body
        → Below x (units F (low c - 1)) (Belongs s body) }
{}

/// The rounded derivatives cover the growths.
pub fn derivatives_cover_growths()
    ensures { (t : Setting) (values : List (Option ℕ)) (along : List ℕ) → IsSound t.spec
        → CoversGrowth t.spec (λ e. is_some (value_at (derivatives_up t values along) e))
        (λ c. units t.bits (slice_index along c))
        (λ e. units t.bits (amount (value_at values e)))
        (λ e. units t.bits (amount (value_at (derivatives_up t values along) e))) }
{}
