//! Laws on ideal making, ideal labels and ideal runs.
ghost use Rattle.std.specs.Prelude.{◌≡◌, ℕ, ◌+◌, ◌-◌, ◌<◌, ◌≤◌, ◌⊎◌, ◌↔◌, List, ◌++◌, length};
ghost use Rattle.bz_model.specs.Fraction.{Fraction};
ghost use Rattle.bz_model.specs.Spec.{Spec};
ghost use Rattle.bz_model.specs.Object.{Object, Belongs};
ghost use Rattle.bz_model.specs.Measures.{size, HasZero};
ghost use Rattle.bz_model.specs.Making.{Made, Just, Over, Makes, MakesFreely};
ghost use Rattle.bz_model.specs.Run.{Window, Kept, IdealRun};
ghost use Rattle.bz_model.specs.Labels.{IdealLabels, AreOneTo};
ghost use Rattle.bz_laws.specs.WithoutRoom.{MakesAlone};

/// What is made belongs to the node, and the room falls by its size.
pub fn what_is_made_belongs_and_fits()
    ensures { (s : Spec) (x : Fraction) (e room room_left : ℕ) (us left : List Fraction)
        (o : Object) → Makes s x e room us (Just o room_left) left
        → Belongs s e o × (room_left + size o ≡ room) }
{}

/// From a room and a list of numbers a node makes at most one thing, and leaves the same numbers.
pub fn making_has_one_outcome()
    ensures { (s : Spec) (x : Fraction) (e room : ℕ) (us left rest : List Fraction) (m n : Made)
        → Makes s x e room us m left → Makes s x e room us n rest → (m ≡ n) × (left ≡ rest) }
{}

/// The room is mere rejection: what is made without a limit of room is made with any room that it
/// fits, and is over in any other, on no more numbers.
pub fn the_room_is_mere_rejection()
    ensures fits { (s : Spec) (x : Fraction) (e max : ℕ) (us left : List Fraction) (o : Object)
        → MakesFreely s x e us o left → size o ≤ max
        → Makes s x e max us (Just o (max - size o)) left }
    ensures over { (s : Spec) (x : Fraction) (e max : ℕ) (us left : List Fraction) (o : Object)
        → ((part : ℕ) → HasZero s part ⊎ (¬ (HasZero s part))) → MakesFreely s x e us o left
        → max < size o → (taken : List Fraction) × Makes s x e max us Over (taken ++ left) }
{}

/// What is made without a limit of room is what is made with some room, and a list of numbers
/// makes at most one object.
pub fn making_without_a_room_is_making_with_some_room()
    ensures same { (s : Spec) (x : Fraction) (e : ℕ) (us left : List Fraction) (o : Object)
        → MakesAlone s x e us o left ↔ MakesFreely s x e us o left }
    ensures one { (s : Spec) (x : Fraction) (e : ℕ) (us left rest : List Fraction) (o p : Object)
        → MakesAlone s x e us o left → MakesAlone s x e us p rest → (o ≡ p) × (left ≡ rest) }
{}

/// The ideal labels of n atoms are 1 to n in some order.
pub fn ideal_labels_are_one_to_n()
    ensures { (n : ℕ) (us left : List Fraction) (labels : List ℕ) → IdealLabels n us labels left
        → AreOneTo n labels }
{}

/// For stated counts of kept and thrown attempts a list of numbers has at most one ideal run.
pub fn an_ideal_run_is_determined()
    ensures { (s : Spec) (x : Fraction) (w : Window) (us left after : List Fraction)
        (kept others : List Kept) (thrown : ℕ) → IdealRun s x w us kept thrown left
        → IdealRun s x w us others thrown after → length kept ≡ length others
        → (kept ≡ others) × (left ≡ after) }
{}
