//! Laws on what the nodes of each kind total, from what their parts total.
ghost use Rattle.std.specs.Prelude.{◌≡◌, ℕ, suc, ◌-◌, ◌<◌, ◌≤◌, max, min, List, length, take};
ghost use Rattle.std.specs.Prelude.{Option, Some, None, slice_get, sum_by};
ghost use Rattle.std.specs.List.{AllByRecursion};
ghost use Rattle.bz_model.specs.Fraction.{Fraction, AtMost, units, whole, sum_from};
ghost use Rattle.bz_model.specs.Spec.{Spec, Node, Range, node_at, range_at, body_of, IsInRange};
ghost use Rattle.bz_model.specs.Spec.{IsWithinHigh};
ghost use Rattle.bz_model.specs.Object.{Object, Objects, Belongs};
ghost use Rattle.bz_model.specs.Totals.{Above, Below, total_by};
ghost use Rattle.bz_model.specs.Ideal.{option_of, Upto};
ghost use Rattle.bz_model.specs.Making.{IsCounted};
ghost use Rattle.bz_laws.specs.Terms.{term_of, product_by};

/// A neutral leaf totals 1.
pub fn neutral_leaves_total_one()
    ensures above { (s : Spec) (x : Fraction) (e : ℕ) (word : List ℕ)
        → node_at s e ≡ Some (Node.Empty word) → Above x (whole 1) (Belongs s e) }
    ensures below { (s : Spec) (x : Fraction) (e : ℕ) (word : List ℕ)
        → node_at s e ≡ Some (Node.Empty word) → Below x (whole 1) (Belongs s e) }
{}

/// An atom totals x.
pub fn atoms_total_x()
    ensures above { (s : Spec) (x : Fraction) (e : ℕ) (word : List ℕ)
        → node_at s e ≡ Some (Node.Atom word) → Above x x (Belongs s e) }
    ensures below { (s : Spec) (x : Fraction) (e : ℕ) (word : List ℕ)
        → node_at s e ≡ Some (Node.Atom word) → Below x x (Belongs s e) }
{}

/// A reference has what its class's body has, and so totals the same.
pub fn references_have_what_their_bodies_have()
    ensures into { (s : Spec) (e c body : ℕ) (o : Object) → node_at s e ≡ Some (Node.Class c)
        → body_of s c ≡ Some body → Belongs s body o → Belongs s e o }
    ensures from { (s : Spec) (e c body : ℕ) (o : Object) → node_at s e ≡ Some (Node.Class c)
        → body_of s c ≡ Some body → Belongs s e o → Belongs s body o }
    ensures above { (s : Spec) (x f : Fraction) (e c body : ℕ) → node_at s e ≡ Some (Node.Class c)
        → body_of s c ≡ Some body → Above x f (Belongs s body) → Above x f (Belongs s e) }
    ensures below { (s : Spec) (x f : Fraction) (e c body : ℕ) → node_at s e ≡ Some (Node.Class c)
        → body_of s c ≡ Some body → Below x f (Belongs s body) → Below x f (Belongs s e) }
{}

/// Bounds of the parts, added, bound a union, and its objects up to an option.
pub fn unions_are_bounded_by_their_parts()
    ensures above { (s : Spec) (x : Fraction) (e : ℕ) (parts : List ℕ) (value : ℕ → Fraction)
        → node_at s e ≡ Some (Node.Union parts)
        → AllByRecursion (λ p. Above x (value p) (Belongs s p)) parts
        → Above x (total_by value parts) (Belongs s e) }
    ensures below { (s : Spec) (x : Fraction) (e : ℕ) (parts : List ℕ) (value : ℕ → Fraction)
        → node_at s e ≡ Some (Node.Union parts)
        → AllByRecursion (λ p. Below x (value p) (Belongs s p)) parts
        → Below x (total_by value parts) (Belongs s e) }
    ensures above_upto { (s : Spec) (x : Fraction) (F e i : ℕ) (parts : List ℕ) (hi : ℕ → ℕ)
        → node_at s e ≡ Some (Node.Union parts)
        → AllByRecursion (λ p. Above x (units F (hi p)) (Belongs s p)) (take (suc i) parts)
        → Above x (units F (sum_by hi (take (suc i) parts))) (Upto s e i) }
    ensures below_upto { (s : Spec) (x : Fraction) (F e i : ℕ) (parts : List ℕ) (lo : ℕ → ℕ)
        → node_at s e ≡ Some (Node.Union parts)
        → AllByRecursion (λ p. Below x (units F (lo p)) (Belongs s p)) (take (suc i) parts)
        → Below x (units F (sum_by lo (take (suc i) parts))) (Upto s e i) }
{}

/// Bounds of the parts, multiplied, bound a product.
pub fn products_are_bounded_by_their_parts()
    ensures above { (s : Spec) (x : Fraction) (e : ℕ) (parts : List ℕ) (value : ℕ → Fraction)
        → node_at s e ≡ Some (Node.Product parts)
        → AllByRecursion (λ p. Above x (value p) (Belongs s p)) parts
        → Above x (product_by value parts) (Belongs s e) }
    ensures below { (s : Spec) (x : Fraction) (e : ℕ) (parts : List ℕ) (value : ℕ → Fraction)
        → node_at s e ≡ Some (Node.Product parts)
        → AllByRecursion (λ p. Below x (value p) (Belongs s p)) parts
        → Below x (product_by value parts) (Belongs s e) }
{}

/// The objects of exactly k parts are bounded by the k-th power of the part's bound, times the
/// share of k parts: 1 at a sequence, 1/k! at a set, 1/k at a cycle.
pub fn counted_nodes_are_bounded_by_powers()
    ensures above { (s : Spec) (x a : Fraction) (e part k : ℕ) (node : Node)
        (form : Objects → Object) → node_at s e ≡ Some node → IsCounted node part form
        → Above x a (Belongs s part)
        → Above x (term_of node a k) (λ o. Belongs s e o × (option_of o ≡ k)) }
    ensures below { (s : Spec) (x a : Fraction) (e part k : ℕ) (node : Node)
        (form : Objects → Object) → node_at s e ≡ Some node → IsCounted node part form
        → IsInRange k (range_at s e) → Below x a (Belongs s part)
        → Below x (term_of node a k) (λ o. Belongs s e o × (option_of o ≡ k)) }
{}

/// The objects of up to i parts are bounded by the sum of the terms from the range's low to i.
pub fn counted_nodes_up_to_an_option_are_bounded_by_sums()
    ensures above { (s : Spec) (x a : Fraction) (e part low i : ℕ) (high : Option ℕ) (node : Node)
        (form : Objects → Object) → node_at s e ≡ Some node → IsCounted node part form
        → range_at s e ≡ Some (record { low = low; high = high }) → Above x a (Belongs s part)
        → Above x (sum_from (term_of node a) low (suc i - low)) (Upto s e i) }
    ensures below { (s : Spec) (x a : Fraction) (e part low i : ℕ) (high : Option ℕ) (node : Node)
        (form : Objects → Object) → node_at s e ≡ Some node → IsCounted node part form
        → range_at s e ≡ Some (record { low = low; high = high }) → IsWithinHigh i high
        → Below x a (Belongs s part)
        → Below x (sum_from (term_of node a) low (suc i - low)) (Upto s e i) }
{}

/// With a high a sequence, set or cycle is bounded by the sum of the terms from low to high.
pub fn counted_nodes_with_a_high_are_bounded_by_a_sum()
    ensures above { (s : Spec) (x a : Fraction) (e part low high : ℕ) (node : Node)
        (form : Objects → Object) → node_at s e ≡ Some node → IsCounted node part form
        → range_at s e ≡ Some (record { low = low; high = Some high })
        → Above x a (Belongs s part)
        → Above x (sum_from (term_of node a) low (suc high - low)) (Belongs s e) }
    ensures below { (s : Spec) (x a : Fraction) (e part low high : ℕ) (node : Node)
        (form : Objects → Object) → node_at s e ≡ Some node → IsCounted node part form
        → range_at s e ≡ Some (record { low = low; high = Some high })
        → Below x a (Belongs s part)
        → Below x (sum_from (term_of node a) low (suc high - low)) (Belongs s e) }
{}

/// What no sum of terms from low on exceeds bounds a sequence, set or cycle, with a high or
/// without. Without a high each such sum is reached.
pub fn counted_nodes_are_bounded_by_all_sums()
    ensures above { (s : Spec) (x a f : Fraction) (e part low : ℕ) (high : Option ℕ) (node : Node)
        (form : Objects → Object) → node_at s e ≡ Some node → IsCounted node part form
        → range_at s e ≡ Some (record { low = low; high = high })
        → ((n : ℕ) → AtMost (sum_from (term_of node a) low n) f) → Above x a (Belongs s part)
        → Above x f (Belongs s e) }
    ensures below { (s : Spec) (x a : Fraction) (e part low n : ℕ) (node : Node)
        (form : Objects → Object) → node_at s e ≡ Some node → IsCounted node part form
        → range_at s e ≡ Some (record { low = low; high = None }) → Below x a (Belongs s part)
        → Below x (sum_from (term_of node a) low n) (Belongs s e) }
{}

/// Up to an option below its low a sequence, set or cycle has nothing, so every number bounds it.
pub fn nothing_is_up_to_an_option_below_the_low()
    ensures none { (s : Spec) (e part low i : ℕ) (high : Option ℕ) (node : Node)
        (form : Objects → Object) (o : Object) → node_at s e ≡ Some node
        → IsCounted node part form → range_at s e ≡ Some (record { low = low; high = high })
        → i < low → ¬ (Upto s e i o) }
    ensures above { (s : Spec) (x f : Fraction) (e part low i : ℕ) (high : Option ℕ) (node : Node)
        (form : Objects → Object) → node_at s e ≡ Some node → IsCounted node part form
        → range_at s e ≡ Some (record { low = low; high = high }) → i < low
        → Above x f (Upto s e i) }
{}

/// In a finite list of objects there is a greatest option, also where the node has no high.
pub fn a_finite_list_has_a_greatest_option()
    ensures { (os : List Object) → (m : ℕ) × AllByRecursion (λ o. option_of o < m) os }
{}

/// The greater of two lower bounds of a node is a lower bound, and the lesser of two upper bounds
/// an upper bound.
pub fn the_better_bound_is_a_bound()
    ensures below { (s : Spec) (x : Fraction) (F e a b : ℕ) → Below x (units F a) (Belongs s e)
        → Below x (units F b) (Belongs s e) → Below x (units F (max a b)) (Belongs s e) }
    ensures above { (s : Spec) (x : Fraction) (F e a b : ℕ) → Above x (units F a) (Belongs s e)
        → Above x (units F b) (Belongs s e) → Above x (units F (min a b)) (Belongs s e) }
    ensures above_upto { (s : Spec) (x : Fraction) (F e i a b : ℕ)
        → Above x (units F a) (Upto s e i) → Above x (units F b) (Belongs s e)
        → Above x (units F (min a b)) (Upto s e i) }
{}
