//! Laws on lists of distinct objects and what they total: the tools that every bound stands on.
ghost use Rattle.std.specs.Prelude.{◌≡◌, ℕ, Bool, true, false, cond, List, [], ◌∷◌, ◌++◌, map};
ghost use Rattle.std.specs.List.{AllByRecursion, filter};
ghost use Rattle.bz_model.specs.Fraction.{Fraction, AtMost, plus, times};
ghost use Rattle.bz_model.specs.Spec.{Spec};
ghost use Rattle.bz_model.specs.Object.{Object, Belongs};
ghost use Rattle.bz_model.specs.Measures.{weight};
ghost use Rattle.bz_model.specs.Ideal.{Upto};
ghost use Rattle.bz_model.specs.Totals.{IsDistinct, IsSample, AboveBy, BelowBy, Above, Below};
ghost use Rattle.bz_model.specs.Totals.{total, total_by};
ghost use Rattle.bz_laws.specs.Terms.{AreEqual};
ghost use Rattle.bz_laws.specs.Lists.{IsOneOf, pairs_of};
ghost use Rattle.bz_laws.specs.ByOption.{SplitsAt};

/// A list of distinct objects that all stand in another list totals at most as much.
pub fn a_sub_list_totals_no_more()
    ensures { (x : Fraction) (some all : List Object) → IsDistinct some
        → AllByRecursion (IsOneOf all) some → AtMost (total x some) (total x all) }
{}

/// A list of distinct objects splits by a test into two, whose totals add up to its own.
pub fn a_list_splits_by_a_test()
    ensures distinct { (test : Object → Bool) (os : List Object) → IsDistinct os
        → IsDistinct (filter test os) }
    ensures total { (x : Fraction) (test : Object → Bool) (os : List Object)
        → AreEqual (total x os) (plus (total x (filter test os)) (total x (filter (λ o. cond (test
        o) false true) os))) }
{}

/// A list of distinct objects with options up to i splits into one of those with a lesser option
/// and one of those with the option i, and the totals add up.
pub fn a_list_splits_at_its_greatest_option()
    ensures { (s : Spec) (x : Fraction) (e i : ℕ) (os : List Object) → IsSample (Upto s e i) os
        → SplitsAt s x e i os }
{}

/// Two lists of distinct objects without a common one join without repeats, and the totals add up.
pub fn lists_without_a_common_object_join()
    ensures distinct { (os more : List Object) → IsDistinct os → IsDistinct more
        → AllByRecursion (λ o. ¬ (IsOneOf more o)) os → IsDistinct (os ++ more) }
    ensures total { (x : Fraction) (os more : List Object)
        → AreEqual (total x (os ++ more)) (plus (total x os) (total x more)) }
{}

/// A map that is one-to-one on a list keeps it without repeats, and multiplies its total by what it
/// multiplies each weight by.
pub fn a_one_to_one_map_scales_the_total()
    ensures distinct { (g : Object → Object) (os : List Object)
        → ((o p : Object) → IsOneOf os o → IsOneOf os p → g o ≡ g p → o ≡ p) → IsDistinct os
        → IsDistinct (map g os) }
    ensures total { (x factor : Fraction) (g : Object → Object) (os : List Object)
        → ((o : Object) → IsOneOf os o → AreEqual (weight x (g o)) (times factor (weight x o)))
        → AreEqual (total x (map g os)) (times factor (total x os)) }
{}

/// The list of all pairs of two lists has no repeats where these have none, and totals the product.
pub fn all_pairs_total_the_product()
    ensures distinct { (os ps : List Object) → IsDistinct os → IsDistinct ps
        → IsDistinct (pairs_of os ps) }
    ensures total { (x : Fraction) (os ps : List Object) → AreEqual (total_by (λ
        (p : Object × Object). times (weight x p.0) (weight x p.1)) (pairs_of os ps)) (times
        (total x os) (total x ps)) }
{}

/// Bounds of two nodes, multiplied, bound the lists of distinct pairs of their objects.
pub fn pairs_are_bounded_by_the_product()
    ensures above { (s : Spec) (x f g : Fraction) (d e : ℕ) → Above x f (Belongs s d)
        → Above x g (Belongs s e) → AboveBy (λ
        (p : Object × Object). times (weight x p.0) (weight x p.1)) (times f g) (λ p. Belongs s d
        p.0 × Belongs s e p.1) }
    ensures below { (s : Spec) (x f g : Fraction) (d e : ℕ) → Below x f (Belongs s d)
        → Below x g (Belongs s e) → BelowBy (λ
        (p : Object × Object). times (weight x p.0) (weight x p.1)) (times f g) (λ p. Belongs s d
        p.0 × Belongs s e p.1) }
{}
