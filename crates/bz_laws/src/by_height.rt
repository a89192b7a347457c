//! Laws by height: what the objects of height at most h total, for each kind of node.
ghost use Rattle.std.specs.Prelude.{◌≡◌, ℕ, suc, ◌-◌, ◌≤◌, ◌↔◌, List, Option, Some, None, take};
ghost use Rattle.std.specs.List.{AllByRecursion};
ghost use Rattle.bz_model.specs.Fraction.{Fraction, AtMost, whole, sum_from};
ghost use Rattle.bz_model.specs.Spec.{Spec, Node, node_at, range_at, body_of, IsInRange};
ghost use Rattle.bz_model.specs.Spec.{IsWithinHigh};
ghost use Rattle.bz_model.specs.Object.{Object, Objects, HasWithin, Belongs};
ghost use Rattle.bz_model.specs.Measures.{IsHeight};
ghost use Rattle.bz_model.specs.Totals.{Above, Below, total_by};
ghost use Rattle.bz_model.specs.Ideal.{option_of};
ghost use Rattle.bz_model.specs.Making.{IsCounted};
ghost use Rattle.bz_laws.specs.Terms.{term_of, product_by};

/// More height is no loss.
pub fn more_height_is_no_loss()
    ensures { (s : Spec) (h k : ℕ) (e : Option ℕ) (o : Object) → h ≤ k → HasWithin s h e o
        → HasWithin s k e o }
{}

/// An object that belongs to a node has one height there, and the node has it within exactly the
/// heights from that on.
pub fn an_object_has_one_height()
    ensures there { (s : Spec) (e : ℕ) (o : Object) → Belongs s e o → (h : ℕ) × IsHeight s e o h }
    ensures within { (s : Spec) (e h k : ℕ) (o : Object) → IsHeight s e o h
        → HasWithin s k (Some e) o ↔ (h ≤ k) }
    ensures one { (s : Spec) (e h k : ℕ) (o : Object) → IsHeight s e o h → IsHeight s e o k
        → h ≡ k }
{}

/// A finite list of objects of a node has a greatest height.
pub fn a_finite_list_has_a_greatest_height()
    ensures { (s : Spec) (e : ℕ) (os : List Object) → AllByRecursion (Belongs s e) os →
        (h : ℕ) × AllByRecursion (HasWithin s h (Some e)) os }
{}

/// A bound at each height is a bound, and what is reached is reached at some height.
pub fn bounds_at_each_height_are_bounds()
    ensures above { (s : Spec) (x f : Fraction) (e : ℕ)
        → ((h : ℕ) → Above x f (HasWithin s h (Some e))) → Above x f (Belongs s e) }
    ensures below { (s : Spec) (x f : Fraction) (e : ℕ) → Below x f (Belongs s e) →
        (h : ℕ) × Below x f (HasWithin s h (Some e)) }
{}

/// A reference has with one more height what its class's body has, and nothing with height 0.
pub fn a_reference_takes_one_height()
    ensures into { (s : Spec) (h e c body : ℕ) (o : Object) → node_at s e ≡ Some (Node.Class c)
        → body_of s c ≡ Some body → HasWithin s h (Some body) o → HasWithin s (suc h) (Some e) o }
    ensures from { (s : Spec) (h e c body : ℕ) (o : Object) → node_at s e ≡ Some (Node.Class c)
        → body_of s c ≡ Some body → HasWithin s (suc h) (Some e) o → HasWithin s h (Some body) o }
    ensures none { (s : Spec) (e c : ℕ) (o : Object) → node_at s e ≡ Some (Node.Class c)
        → ¬ (HasWithin s 0 (Some e) o) }
    ensures above { (s : Spec) (x f : Fraction) (h e c body : ℕ)
        → node_at s e ≡ Some (Node.Class c) → body_of s c ≡ Some body
        → Above x f (HasWithin s h (Some body)) → Above x f (HasWithin s (suc h) (Some e)) }
    ensures above_none { (s : Spec) (x f : Fraction) (e c : ℕ) → node_at s e ≡ Some (Node.Class c)
        → Above x f (HasWithin s 0 (Some e)) }
    ensures below { (s : Spec) (x f : Fraction) (h e c body : ℕ)
        → node_at s e ≡ Some (Node.Class c) → body_of s c ≡ Some body
        → Below x f (HasWithin s h (Some body)) → Below x f (HasWithin s (suc h) (Some e)) }
{}

/// A neutral leaf totals 1 and an atom x, at each height.
pub fn leaves_are_bounded_at_each_height()
    ensures neutral_above { (s : Spec) (x : Fraction) (h e : ℕ) (word : List ℕ)
        → node_at s e ≡ Some (Node.Empty word) → Above x (whole 1) (HasWithin s h (Some e)) }
    ensures neutral_below { (s : Spec) (x : Fraction) (h e : ℕ) (word : List ℕ)
        → node_at s e ≡ Some (Node.Empty word) → Below x (whole 1) (HasWithin s h (Some e)) }
    ensures atom_above { (s : Spec) (x : Fraction) (h e : ℕ) (word : List ℕ)
        → node_at s e ≡ Some (Node.Atom word) → Above x x (HasWithin s h (Some e)) }
    ensures atom_below { (s : Spec) (x : Fraction) (h e : ℕ) (word : List ℕ)
        → node_at s e ≡ Some (Node.Atom word) → Below x x (HasWithin s h (Some e)) }
{}

/// Bounds of the parts at a height, added, bound a union, and its objects up to an option.
pub fn unions_are_bounded_at_each_height()
    ensures above { (s : Spec) (x : Fraction) (h e : ℕ) (parts : List ℕ) (value : ℕ → Fraction)
        → node_at s e ≡ Some (Node.Union parts)
        → AllByRecursion (λ p. Above x (value p) (HasWithin s h (Some p))) parts
        → Above x (total_by value parts) (HasWithin s h (Some e)) }
    ensures below { (s : Spec) (x : Fraction) (h e : ℕ) (parts : List ℕ) (value : ℕ → Fraction)
        → node_at s e ≡ Some (Node.Union parts)
        → AllByRecursion (λ p. Below x (value p) (HasWithin s h (Some p))) parts
        → Below x (total_by value parts) (HasWithin s h (Some e)) }
    ensures above_upto { (s : Spec) (x : Fraction) (h e i : ℕ) (parts : List ℕ) (value : ℕ
        → Fraction) → node_at s e ≡ Some (Node.Union parts)
        → AllByRecursion (λ p. Above x (value p) (HasWithin s h (Some p))) (take (suc i) parts)
        → Above x (total_by value (take (suc i) parts)) (λ o. HasWithin s h (Some e) o ×
        (option_of o ≤ i)) }
    ensures below_upto { (s : Spec) (x : Fraction) (h e i : ℕ) (parts : List ℕ) (value : ℕ
        → Fraction) → node_at s e ≡ Some (Node.Union parts)
        → AllByRecursion (λ p. Below x (value p) (HasWithin s h (Some p))) (take (suc i) parts)
        → Below x (total_by value (take (suc i) parts)) (λ o. HasWithin s h (Some e) o ×
        (option_of o ≤ i)) }
{}

/// Bounds of the parts at a height, multiplied, bound a product.
pub fn products_are_bounded_at_each_height()
    ensures above { (s : Spec) (x : Fraction) (h e : ℕ) (parts : List ℕ) (value : ℕ → Fraction)
        → node_at s e ≡ Some (Node.Product parts)
        → AllByRecursion (λ p. Above x (value p) (HasWithin s h (Some p))) parts
        → Above x (product_by value parts) (HasWithin s h (Some e)) }
    ensures below { (s : Spec) (x : Fraction) (h e : ℕ) (parts : List ℕ) (value : ℕ → Fraction)
        → node_at s e ≡ Some (Node.Product parts)
        → AllByRecursion (λ p. Below x (value p) (HasWithin s h (Some p))) parts
        → Below x (product_by value parts) (HasWithin s h (Some e)) }
{}

/// Sums of terms of the part's bound at a height bound a sequence, set or cycle: with exactly k
/// parts, up to an option, with a high, and without.
pub fn counted_nodes_are_bounded_at_each_height()
    ensures above_exactly { (s : Spec) (x a : Fraction) (h e part k : ℕ) (node : Node)
        (form : Objects → Object) → node_at s e ≡ Some node → IsCounted node part form
        → Above x a (HasWithin s h (Some part))
        → Above x (term_of node a k) (λ o. HasWithin s h (Some e) o × (option_of o ≡ k)) }
    ensures below_exactly { (s : Spec) (x a : Fraction) (h e part k : ℕ) (node : Node)
        (form : Objects → Object) → node_at s e ≡ Some node → IsCounted node part form
        → IsInRange k (range_at s e) → Below x a (HasWithin s h (Some part))
        → Below x (term_of node a k) (λ o. HasWithin s h (Some e) o × (option_of o ≡ k)) }
    ensures above_upto { (s : Spec) (x a : Fraction) (h e part low i : ℕ) (high : Option ℕ)
        (node : Node) (form : Objects → Object) → node_at s e ≡ Some node
        → IsCounted node part form → range_at s e ≡ Some (record { low = low; high = high })
        → Above x a (HasWithin s h (Some part))
        → Above x (sum_from (term_of node a) low (suc i - low)) (λ o. HasWithin s h (Some e) o ×
        (option_of o ≤ i)) }
    ensures below_upto { (s : Spec) (x a : Fraction) (h e part low i : ℕ) (high : Option ℕ)
        (node : Node) (form : Objects → Object) → node_at s e ≡ Some node
        → IsCounted node part form → range_at s e ≡ Some (record { low = low; high = high })
        → IsWithinHigh i high → Below x a (HasWithin s h (Some part))
        → Below x (sum_from (term_of node a) low (suc i - low)) (λ o. HasWithin s h (Some e) o ×
        (option_of o ≤ i)) }
    ensures above_ranged { (s : Spec) (x a : Fraction) (h e part low high : ℕ) (node : Node)
        (form : Objects → Object) → node_at s e ≡ Some node → IsCounted node part form
        → range_at s e ≡ Some (record { low = low; high = Some high })
        → Above x a (HasWithin s h (Some part))
        → Above x (sum_from (term_of node a) low (suc high - low)) (HasWithin s h (Some e)) }
    ensures below_ranged { (s : Spec) (x a : Fraction) (h e part low high : ℕ) (node : Node)
        (form : Objects → Object) → node_at s e ≡ Some node → IsCounted node part form
        → range_at s e ≡ Some (record { low = low; high = Some high })
        → Below x a (HasWithin s h (Some part))
        → Below x (sum_from (term_of node a) low (suc high - low)) (HasWithin s h (Some e)) }
    ensures above_all { (s : Spec) (x a f : Fraction) (h e part low : ℕ) (high : Option ℕ)
        (node : Node) (form : Objects → Object) → node_at s e ≡ Some node
        → IsCounted node part form → range_at s e ≡ Some (record { low = low; high = high })
        → ((n : ℕ) → AtMost (sum_from (term_of node a) low n) f)
        → Above x a (HasWithin s h (Some part)) → Above x f (HasWithin s h (Some e)) }
    ensures below_all { (s : Spec) (x a : Fraction) (h e part low n : ℕ) (node : Node)
        (form : Objects → Object) → node_at s e ≡ Some node → IsCounted node part form
        → range_at s e ≡ Some (record { low = low; high = None })
        → Below x a (HasWithin s h (Some part))
        → Below x (sum_from (term_of node a) low n) (HasWithin s h (Some e)) }
{}
