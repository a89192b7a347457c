//! Laws on numbers for the nodes: where they cover what the parts' numbers give they bound every
//! total, and where they are reached by it they are reached.
ghost use Rattle.std.specs.Prelude.{◌≡◌, ℕ, suc, ◌<◌, min, Bool, IsTrue, length, Some};
ghost use Rattle.bz_model.specs.Fraction.{Fraction, AtMost, units};
ghost use Rattle.bz_model.specs.Spec.{Spec, body_of};
ghost use Rattle.bz_model.specs.Object.{HasWithin, Belongs};
ghost use Rattle.bz_model.specs.Totals.{Above, Below};
ghost use Rattle.bz_laws.specs.Sound.{IsLaidOut};
ghost use Rattle.bz_laws.specs.Values.{Covers, AreReached, AreLowerSweeps};

/// Where the entries bound the objects of the classes, numbers that cover the nodes bound the
/// nodes' objects. By height: of one height more; and of height 0 whatever the entries are. Numbers
/// may be told of some nodes alone.
pub fn numbers_that_cover_the_nodes_bound_them()
    ensures belongs { (s : Spec) (x : Fraction) (told : ℕ → Bool) (entry value : ℕ → Fraction)
        → IsLaidOut s → Covers s x told entry value
        → ((c body : ℕ) → body_of s c ≡ Some body → Above x (entry c) (Belongs s body)) → (e : ℕ)
        → IsTrue (told e) → Above x (value e) (Belongs s e) }
    ensures height { (s : Spec) (x : Fraction) (h : ℕ) (told : ℕ → Bool)
        (entry value : ℕ → Fraction) → IsLaidOut s → Covers s x told entry value
        → ((c body : ℕ) → body_of s c ≡ Some body → Above x (entry c) (HasWithin s h (Some body)))
        → (e : ℕ) → IsTrue (told e) → Above x (value e) (HasWithin s (suc h) (Some e)) }
    ensures height_zero { (s : Spec) (x : Fraction) (told : ℕ → Bool) (entry value : ℕ → Fraction)
        → IsLaidOut s → Covers s x told entry value → (e : ℕ) → IsTrue (told e)
        → Above x (value e) (HasWithin s 0 (Some e)) }
{}

/// Where the entries are reached by the objects of the classes, numbers that are reached by the
/// nodes are reached by the nodes' objects.
pub fn numbers_that_the_nodes_reach_are_reached()
    ensures { (s : Spec) (x : Fraction) (entry value : ℕ → Fraction) → IsLaidOut s
        → AreReached s x entry value
        → ((c body : ℕ) → body_of s c ≡ Some body → Below x (entry c) (Belongs s body)) → (e : ℕ)
        → e < length s.nodes → Below x (value e) (Belongs s e) }
{}

/// Post-fixed entries bound every total: where each class's body has a number that is at most the
/// class's entry, and the numbers cover their nodes, the entries bound the classes and the numbers
/// the nodes, whatever the height of the objects.
pub fn post_fixed_entries_bound_every_total()
    ensures entries { (s : Spec) (x : Fraction) (told : ℕ → Bool) (entry value : ℕ → Fraction)
        → IsLaidOut s → Covers s x told entry value
        → ((c body : ℕ) → body_of s c ≡ Some body → IsTrue (told body))
        → ((c body : ℕ) → body_of s c ≡ Some body → AtMost (value body) (entry c)) → (c body : ℕ)
        → body_of s c ≡ Some body → Above x (entry c) (Belongs s body) }
    ensures values { (s : Spec) (x : Fraction) (told : ℕ → Bool) (entry value : ℕ → Fraction)
        → IsLaidOut s → Covers s x told entry value
        → ((c body : ℕ) → body_of s c ≡ Some body → IsTrue (told body))
        → ((c body : ℕ) → body_of s c ≡ Some body → AtMost (value body) (entry c)) → (e : ℕ)
        → IsTrue (told e) → Above x (value e) (Belongs s e) }
{}

/// The entries of lower sweeps from zero are reached.
pub fn lower_sweeps_from_zero_are_reached()
    ensures zero { (s : Spec) (x : Fraction) (F e : ℕ) → Below x (units F 0) (Belongs s e) }
    ensures swept { (s : Spec) (x : Fraction) (F : ℕ) (entry value : ℕ → ℕ → ℕ) → IsLaidOut s
        → AreLowerSweeps s x F entry value → (n c body : ℕ) → body_of s c ≡ Some body
        → Below x (units F (entry n c)) (Belongs s body) }
{}

/// An upper sweep keeps bounds: the lesser of a class's entry and its body's number bounds it.
pub fn an_upper_sweep_keeps_bounds()
    ensures { (s : Spec) (x : Fraction) (F : ℕ) (told : ℕ → Bool) (entry value : ℕ → ℕ)
        → IsLaidOut s → Covers s x told (λ c. units F (entry c)) (λ e. units F (value e))
        → ((c body : ℕ) → body_of s c ≡ Some body → Above x (units F (entry c)) (Belongs s body))
        → (c body : ℕ) → body_of s c ≡ Some body → IsTrue (told body)
        → Above x (units F (min (entry c) (value body))) (Belongs s body) }
{}
