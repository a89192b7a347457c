//! Laws on the ideal choice: what a cell's tests decide for every number of the cell.
ghost use Rattle.std.specs.Prelude.{◌≡◌, ℕ, suc, ◌*◌, ◌^◌, ◌<◌, ◌≤◌, List, length, Option, Some};
ghost use Rattle.std.specs.Prelude.{slice_get};
ghost use Rattle.bz_model.specs.Fraction.{Fraction, IsUniform, units};
ghost use Rattle.bz_model.specs.Spec.{Spec, Node, node_at, range_at, IsInRange};
ghost use Rattle.bz_model.specs.Object.{Object, Objects, Belongs};
ghost use Rattle.bz_model.specs.Totals.{Above, Below};
ghost use Rattle.bz_model.specs.Ideal.{option_of, Before, Upto, IsIdealOption, IsGreatestOption};
ghost use Rattle.bz_model.specs.Making.{IsCounted};
ghost use Rattle.bz_model.specs.Cell.{IsInCell};

/// At most one option is ideal for a number at a node.
pub fn at_most_one_option_is_ideal()
    ensures { (s : Spec) (x u : Fraction) (e i j : ℕ) → IsIdealOption s x u e i
        → IsIdealOption s x u e j → i ≡ j }
{}

/// What comes before the end of an option comes before the end of each later one.
pub fn the_comparison_grows()
    ensures { (s : Spec) (x u : Fraction) (e i j : ℕ) → j ≤ i → Before s x u e j
        → Before s x u e i }
{}

/// The numbers of a cell below 1 are uniform numbers.
pub fn cells_have_uniform_numbers()
    ensures { (k b : ℕ) (u : Fraction) → k < 2 ^ b → IsInCell k b u → IsUniform u }
{}

/// A cell's tests on bounds decide for every number of the cell.
pub fn bounds_decide()
    ensures passes { (s : Spec) (x u : Fraction) (k b F e i lo hi : ℕ) (o : Object) → 0 < x.num
        → Belongs s e o → Above x (units F hi) (Belongs s e) → Below x (units F lo) (Upto s e i)
        → suc k * hi ≤ 2 ^ b * lo → IsInCell k b u → Before s x u e i }
    ensures fails { (s : Spec) (x u : Fraction) (k b F e i lo hi : ℕ)
        → Below x (units F lo) (Belongs s e) → Above x (units F hi) (Upto s e i)
        → 2 ^ b * hi ≤ k * lo → IsInCell k b u → (j : ℕ) → j ≤ i → ¬ (Before s x u e j) }
    ensures over { (s : Spec) (x u : Fraction) (k b F e room lo hi : ℕ) (o : Object) → k < 2 ^ b
        → 0 < x.num → Belongs s e o → Below x (units F lo) (Belongs s e)
        → Above x (units F hi) (Upto s e room) → 2 ^ b * hi ≤ k * lo → IsInCell k b u → (i : ℕ)
        → i ≤ room → ¬ (IsIdealOption s x u e i) }
{}

/// An option that a cell's tests name is the ideal option of every number of the cell.
///
/// Option 0, and each option whose predecessor fails the second test, need the first test or to be
/// the greatest. A low above 0 is no case of its own: up to an option below it 0 is an upper bound.
pub fn decisions_are_ideal()
    ensures first { (s : Spec) (x u : Fraction) (k b F e hi lo_first : ℕ) (o : Object) → 0 < x.num
        → Belongs s e o → Above x (units F hi) (Belongs s e)
        → Below x (units F lo_first) (Upto s e 0) → suc k * hi ≤ 2 ^ b * lo_first → IsInCell k b u
        → IsIdealOption s x u e 0 }
    ensures later { (s : Spec) (x u : Fraction) (k b F e i lo hi lo_upto hi_before : ℕ)
        (o : Object) → 0 < x.num → Belongs s e o → Below x (units F lo) (Belongs s e)
        → Above x (units F hi) (Belongs s e) → Below x (units F lo_upto) (Upto s e (suc i))
        → Above x (units F hi_before) (Upto s e i) → suc k * hi ≤ 2 ^ b * lo_upto
        → 2 ^ b * hi_before ≤ k * lo → IsInCell k b u → IsIdealOption s x u e (suc i) }
    ensures greatest { (s : Spec) (x u : Fraction) (k b F e i lo hi_before : ℕ)
        → IsGreatestOption s e (suc i) → Below x (units F lo) (Belongs s e)
        → Above x (units F hi_before) (Upto s e i) → 2 ^ b * hi_before ≤ k * lo → IsInCell k b u
        → IsIdealOption s x u e (suc i) }
    ensures only { (s : Spec) (x u : Fraction) (e : ℕ) → IsGreatestOption s e 0
        → IsIdealOption s x u e 0 }
{}

/// The first option of a sequence, set or cycle is its low: it needs the first test alone, and not
/// even that where it is the high too. With a room below the low every number is over.
pub fn the_low_is_the_first_option()
    ensures decided { (s : Spec) (x u : Fraction) (k b F e part low lo hi : ℕ) (high : Option ℕ)
        (node : Node) (form : Objects → Object) (o : Object) → 0 < x.num → Belongs s e o
        → node_at s e ≡ Some node → IsCounted node part form
        → range_at s e ≡ Some (record { low = low; high = high })
        → Above x (units F hi) (Belongs s e) → Below x (units F lo) (Upto s e low)
        → suc k * hi ≤ 2 ^ b * lo → IsInCell k b u → IsIdealOption s x u e low }
    ensures only { (s : Spec) (x u : Fraction) (e part low : ℕ) (node : Node)
        (form : Objects → Object) (o : Object) → node_at s e ≡ Some node
        → IsCounted node part form → range_at s e ≡ Some (record { low = low; high = Some low })
        → Belongs s part o → IsIdealOption s x u e low }
    ensures over { (s : Spec) (x u : Fraction) (e part low room i : ℕ) (high : Option ℕ)
        (node : Node) (form : Objects → Object) → node_at s e ≡ Some node
        → IsCounted node part form → range_at s e ≡ Some (record { low = low; high = high })
        → room < low → i ≤ room → ¬ (IsIdealOption s x u e i) }
{}

/// The ideal option is one that an object of the node has, and so lies in the node's range.
pub fn the_ideal_option_is_taken()
    ensures { (s : Spec) (x u : Fraction) (e i : ℕ) → IsIdealOption s x u e i →
        (o : Object) × Belongs s e o × (option_of o ≡ i) }
{}

/// The option of a union's object is below its number of parts, that of a sequence, set or cycle
/// lies in its range. So a cycle has a part where its low is at least 1.
pub fn options_lie_in_the_range()
    ensures union { (s : Spec) (e : ℕ) (parts : List ℕ) (o : Object)
        → node_at s e ≡ Some (Node.Union parts) → Belongs s e o → option_of o < length parts }
    ensures counted { (s : Spec) (e part : ℕ) (node : Node) (form : Objects → Object) (o : Object)
        → node_at s e ≡ Some node → IsCounted node part form → Belongs s e o
        → IsInRange (option_of o) (range_at s e) }
{}

/// The last part of a union is its greatest option, where the part has an object.
pub fn the_last_part_is_the_greatest_option()
    ensures { (s : Spec) (e i part : ℕ) (parts : List ℕ) (o : Object)
        → node_at s e ≡ Some (Node.Union parts) → length parts ≡ suc i
        → slice_get parts i ≡ Some part → Belongs s part o → IsGreatestOption s e i }
{}

/// A high is the greatest option of its node, where the part has an object.
pub fn a_high_is_the_greatest_option()
    ensures { (s : Spec) (e part low high : ℕ) (node : Node) (form : Objects → Object)
        (o : Object) → node_at s e ≡ Some node → IsCounted node part form
        → range_at s e ≡ Some (record { low = low; high = Some high }) → low ≤ high
        → Belongs s part o → IsGreatestOption s e high }
{}
