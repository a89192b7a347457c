//! Laws of what comes of the command. Each function's contract is a law, and its body does nothing.
ghost use Rattle.std.specs.Prelude.{◌≡◌, ◌≢◌, ℕ, ◌≤◌, List, ◌∷◌, length};
ghost use Rattle.bz_model.specs.declared.fraction.Fraction.{Fraction};
ghost use Rattle.size_window.specs.declared.limits.Limits.{Limits};
ghost use Rattle.call_stages.specs.Outcomes.{IsOne};
ghost use Rattle.call_stages.specs.Stages.{Files, AreCalm};
ghost use Rattle.call_stages.specs.declared.status.Status.{Status};
ghost use Rattle.pool_command.specs.PoolCommand.{PoolSetting, PoolDrawn, CarriesPool};
ghost use Rattle.pool_command.specs.Schedules.{AreOverOne};

/// Where its files are known and no read of them failed, the command has one status with one text,
/// but for out of memory.
pub fn the_command_has_one_outcome()
    ensures one { (f : Files) (file : List ℕ) (x : Fraction) (schedule : List ℕ)
        (tapes : List (List ℕ)) (limits : Limits) (F : ℕ) → 1 ≤ length tapes
        → AreCalm f (file ∷ schedule ∷ tapes)
        → IsOne (CarriesPool f file x schedule tapes limits F) }
{}

/// Two schedules over tapes that are known, of which no read failed, give one status, and texts
/// that differ in the line of the order alone, but for out of memory.
pub fn schedules_differ_in_the_order_alone()
    ensures alike { (p : PoolSetting) (f : Files) (tapes : List (List ℕ)) → 1 ≤ length tapes
        → AreCalm f tapes → (a b : List ℕ) (status other : Status) (text others : List ℕ)
        (ticks more : ℕ) → status ≢ Status.OutOfMemory → other ≢ Status.OutOfMemory
        → PoolDrawn p f tapes a status text ticks → PoolDrawn p f tapes b other others more
        → AreOverOne p (length tapes) a b status other text others }
{}
