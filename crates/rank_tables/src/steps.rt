//! A law on the steps of ranking.
ghost use Rattle.std.specs.Prelude.{ℕ, List};
ghost use Rattle.bz_model.specs.Spec.{Spec};
ghost use Rattle.bz_model.specs.Object.{Objects};
ghost use Rattle.rank_tables.specs.Visits.{Visit, AreVisits, all_visited, TellPlaces};

/// The visits of some objects, taken from the last to the first, tell the size and the place of
/// each object.
pub fn visits_tell_places()
    ensures { (s : Spec) (t : ℕ → ℕ → ℕ) (es : List ℕ) (os : Objects) (vs : List Visit)
        → AreVisits s es os vs → TellPlaces s t es os (all_visited s t vs) }
{}
