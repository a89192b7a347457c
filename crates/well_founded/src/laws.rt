//! Laws of the foundedness rule: empty functions whose contracts are theorems over
//! `specs/Foundedness.antt`.
ghost use Rattle.std.specs.Prelude.{ℕ, ◌⊎◌, ◌↔◌, IsTrue};
ghost use Rattle.bz_model.specs.Spec.{Spec};
ghost use Rattle.bz_model.specs.Object.{Object, Belongs};
ghost use Rattle.bz_model.specs.Measures.{HasZero};
ghost use Rattle.class_system.specs.Sound.{IsSound};
ghost use Rattle.well_founded.specs.EmptyObjects.{has_empty};
ghost use Rattle.well_founded.specs.Foundedness.{HasSome, HasEmpty};

/// In a sound specification a node has an object by the rule exactly where one belongs to it, and
/// an object of size 0 by the rule exactly where one of size 0 belongs to it.
pub fn the_rule_tells_what_belongs()
    ensures any_size { (s : Spec) (e : ℕ) → IsSound s
        → HasSome s e ↔ ((o : Object) × Belongs s e o) }
    ensures size_0 { (s : Spec) (e : ℕ) → IsSound s → HasEmpty s e ↔ HasZero s e }
{}

/// The rule decides which nodes of a sound specification have an object of size 0.
pub fn objects_of_size_0_are_decided()
    ensures computed { (s : Spec) (e : ℕ) → IsSound s → IsTrue (has_empty s e) ↔ HasZero s e }
    ensures decided { (s : Spec) (e : ℕ) → IsSound s → HasZero s e ⊎ (¬ HasZero s e) }
{}
