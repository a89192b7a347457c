//! What the drawers know of class values.
ghost use Rattle.std.specs.Prelude.{◌≡◌, ℕ, ◌+◌, ◌<◌, ◌≤◌, ◌⊎◌, ◌↔◌, max, List, length, IfSome};
ghost use Rattle.std.specs.Prelude.{IsNone};
ghost use Rattle.bz_model.specs.Fraction.{Fraction};
ghost use Rattle.bz_model.specs.Spec.{Spec};
ghost use Rattle.bz_model.specs.declared.cell.Bounds.{Bounds};
ghost use Rattle.bz_model.specs.Oracle.{IsSoundTable, AreCosts, cost_between};

use crate::cell::Bounds;
use crate::steps::Steps;
use std::sync::ledger::Ledger;

/// A table of bounds for each node and the levels 1 to 6, in units of `2^-F`.
///
/// No call changes the specification, x, the table or the costs. Raising changes the highest raised
/// level alone.
pub trait Oracle<const F: u32> {
    /// The specification whose nodes are bounded.
    ghost spec: { Self → Spec };

    /// The number at which the classes' values are taken.
    ghost x: { Self → Fraction };

    /// The bounds of a node at a level.
    ghost table: { Self → (level node : ℕ) → Bounds };

    /// The highest raised level, 0 where none is.
    ghost raised: { Self → ℕ };

    /// What raising to each level costs at most, in ticks.
    ghost cost: { Self → List ℕ };

    /// Raises all levels up to this one. Takes no memory.
    fn raise<L: Ledger>(&mut self, level: u8, steps: &mut Steps<L>)
        requires level { (1 ≤ level) × (level ≤ 6) }
        ensures spec { spec self.new ≡ spec self.old }
        ensures x { x self.new ≡ x self.old }
        ensures table { table self.new ≡ table self.old }
        ensures cost { cost self.new ≡ cost self.old }
        ensures raised { raised self.new ≡ max (raised self.old) level }
        ensures ticks { steps.new ≤ steps.old + cost_between (cost self.old) (raised self.old)
            (raised self.new) };

    /// The bounds of a node at a raised level; None exactly at level 0 and above the highest raised
    /// one. Takes no memory.
    fn bounds(&self, node: u32, level: u8) -> Option<Bounds>
        requires in_range { node < length (spec self.now).nodes }
        ensures none { IsNone result ↔ ((level ≡ 0) ⊎ (raised self.now < level)) }
        ensures table { IfSome result (λ b. b ≡ table self.now level node) };

    /// Does nothing: its clauses say what the table and the costs are.
    fn known(&self)
        ensures sound { IsSoundTable (spec self.now) (x self.now) F (table self.now) }
        ensures costs { AreCosts (cost self.now) }
        ensures raised { raised self.now ≤ 6 };
}
