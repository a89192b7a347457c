//! Laws on weights, and that every node has an object.
ghost use Rattle.std.specs.Prelude.{◌≡◌, ℕ, ◌*◌, ◌^◌, ◌<◌, length, Some};
ghost use Rattle.bz_model.specs.Fraction.{Fraction};
ghost use Rattle.bz_model.specs.Spec.{Spec, body_of};
ghost use Rattle.bz_model.specs.Object.{Object, Belongs};
ghost use Rattle.bz_model.specs.Measures.{size, weight};
ghost use Rattle.bz_model.specs.Totals.{Above};
ghost use Rattle.bz_laws.specs.Orders.{orders};
ghost use Rattle.bz_laws.specs.Sound.{IsLaidOut};

/// The weight of an object is x to its size, over k! for each set of k parts and k for each cycle.
pub fn a_weight_is_a_power_over_the_orders()
    ensures num { (x : Fraction) (o : Object) → (weight x o).num ≡ x.num ^ size o }
    ensures den { (x : Fraction) (o : Object) → (weight x o).den ≡ x.den ^ size o * orders o }
{}

/// Where x is above 0, so is each object's weight, and so each upper bound of a node that has an
/// object.
pub fn weights_are_positive()
    ensures weight { (x : Fraction) (o : Object) → 0 < x.num → 0 < (weight x o).num }
    ensures above { (s : Spec) (x f : Fraction) (e : ℕ) (o : Object) → 0 < x.num → Belongs s e o
        → Above x f (Belongs s e) → 0 < f.num }
{}

/// Where each class has an object, each node of a sound specification has one, so that each upper
/// bound of a node is above 0.
pub fn every_node_has_an_object()
    ensures object { (s : Spec) (e : ℕ) → IsLaidOut s
        → ((c body : ℕ) → body_of s c ≡ Some body → (o : Object) × Belongs s body o)
        → e < length s.nodes → (o : Object) × Belongs s e o }
    ensures above { (s : Spec) (x f : Fraction) (e : ℕ) → IsLaidOut s
        → ((c body : ℕ) → body_of s c ≡ Some body → (o : Object) × Belongs s body o)
        → e < length s.nodes → 0 < x.num → Above x f (Belongs s e) → 0 < f.num }
{}
