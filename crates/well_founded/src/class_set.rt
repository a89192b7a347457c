//! Sets of classes, one bit for each class.
ghost use Rattle.std.specs.Prelude.{◌≡◌, ℕ, ◌<◌, ◌↔◌, ◌⊎◌, IsTrue};
ghost use Rattle.well_founded.specs.Ways.{IsIn};

/// A set of classes with numbers below 64.
#[derive(Clone, Copy)]
pub struct ClassSet(u64);

impl ClassSet {
    /// The set of no class.
    pub fn empty() -> ClassSet
        ensures { (d : ℕ) → ¬ IsIn result d }
    {
        ClassSet(0)
    }

    /// The set of one class.
    pub fn only(class: u32) -> ClassSet
        requires { class < 64 }
        ensures { (d : ℕ) → IsIn result d ↔ (d ≡ class) }
    {
        ClassSet(1 << class)
    }

    /// The set of the classes of both.
    pub fn union(self, other: ClassSet) -> ClassSet
        ensures { (d : ℕ) → IsIn result d ↔ (IsIn self d ⊎ IsIn other d) }
    {
        ClassSet(self.0 | other.0)
    }

    /// Whether the class is in the set.
    pub fn contains(self, class: u32) -> bool
        requires { class < 64 }
        ensures { IsTrue result ↔ IsIn self class }
    {
        (self.0 >> class) & 1 == 1
    }
}
