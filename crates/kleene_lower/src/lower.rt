//! A class vector that is swept from a start, further and further.
ghost use Rattle.std.specs.Prelude.{◌≡◌, ℕ, ◌+◌, ◌≤◌, ◌<◌, List, length, IfOk};
ghost use Rattle.bz_model.specs.Fraction.{ratio, IsFractionBits};
ghost use Rattle.bz_model.specs.Spec.{Spec};
ghost use Rattle.class_system.specs.Sound.{IsSound};
ghost use Rattle.rounded_map.specs.RoundedMap.{Setting, setting, repeated, sweep_down};
ghost use Rattle.rounded_map.specs.Bounding.{AreBelow};
ghost use Rattle.kleene_lower.specs.Lower.{AreSweepsFrom, swept_from, zeros};

use bz_model::fraction::Fraction;
use bz_model::steps::Steps;
use class_system::system::System;
use rounded_map::sweep_lo;
use std::alloc::{AllocError, Global};
use std::marker::Model;
use std::sync::ledger::Ledger;

/// The class values after some number of lower sweeps from a start, in units of `2^-F`.
#[derive(Drop)]
pub struct Lower<const F: u32> {
    classes: Vec<u64>,
    nodes: Vec<u64>,
    sweeps: u64,
}

impl<const F: u32> Model for Lower<F> {
    ghost use Rattle.std.specs.Prelude.{vec_len};
    ghost use Rattle.kleene_lower.specs.Lower.{Sweeps};

    ghost Value = { Sweeps };

    ghost view = { λ l. record {
      entries = l.classes.items;
      room = vec_len l.nodes;
      done = l.sweeps;
    } };
}

impl<const F: u32> Lower<F> {
    /// Zero for each class, and room for the node values. No sweep is done.
    pub fn new(alloc: Global, system: &System) -> Result<Lower<F>, AllocError>
        ensures zero { IfOk result (λ lower. (num den : ℕ)
            → AreSweepsFrom (setting system.now num den F) (zeros (setting system.now num den F))
            lower) }
        ensures none_done { IfOk result (λ lower. lower.done ≡ 0) }
        ensures one_per_class { IfOk result
            (λ lower. length lower.entries ≡ length system.now.bodies) }
        ensures one_per_node { IfOk result (λ lower. lower.room ≡ length system.now.nodes) }
    {
        let classes = vec![in alloc; 0; system.bodies().len()]?;
        Lower::from_start(alloc, system, classes)
    }

    /// The start, which has one entry for each class, and room for the node values. No sweep is
    /// done.
    pub fn from_start(
        alloc: Global,
        system: &System,
        start: Vec<u64>,
    ) -> Result<Lower<F>, AllocError>
        requires one_per_class { length start.items ≡ length system.now.bodies }
        ensures from { IfOk result (λ lower. (num den : ℕ)
            → AreSweepsFrom (setting system.now num den F) start.items lower) }
        ensures none_done { IfOk result (λ lower. lower.done ≡ 0) }
        ensures one_per_class { IfOk result
            (λ lower. length lower.entries ≡ length system.now.bodies) }
        ensures one_per_node { IfOk result (λ lower. lower.room ≡ length system.now.nodes) }
    {
        let nodes = vec![in alloc; 0; system.nodes().len()]?;
        Ok(Lower {
            classes: start,
            nodes,
            sweeps: 0,
        })
    }

    /// Sweeps on until so many sweeps are done.
    ///
    /// No fewer sweeps are asked for than are done. Where the system and x are those of the calls
    /// before, these are sweeps from the start on. One tick for each new sweep. Takes no memory.
    pub fn advance_to<L: Ledger>(
        &mut self,
        system: &System,
        x: Fraction,
        sweeps: u64,
        steps: &mut Steps<L>,
    )
        requires fraction_bits { IsFractionBits F }
        requires one_per_class { length self.old.entries ≡ length system.now.bodies }
        requires one_per_node { self.old.room ≡ length system.now.nodes }
        requires no_fewer { self.old.done ≤ sweeps }
        ensures same { (start : List ℕ)
            → AreSweepsFrom (setting system.now x.num x.den F) start self.old
            → AreSweepsFrom (setting system.now x.num x.den F) start self.new }
        ensures done { self.new.done ≡ sweeps }
        ensures length { length self.new.entries ≡ length self.old.entries }
        ensures room { self.new.room ≡ self.old.room }
        ensures ticks { steps.new + self.old.done ≡ steps.old + sweeps }
    {
        let further = sweeps - self.sweeps;
        sweep_on::<F, L>(
            system,
            x,
            further,
            &mut self.classes,
            &mut self.nodes,
            steps,
        );
        self.sweeps = sweeps;
    }

    /// The class values. Takes no memory.
    ///
    /// Where the start is reached, each is: some list of distinct objects of the class totals at
    /// least so much.
    pub fn values(&self) -> &[u64]
        ensures entries { result.now ≡ self.now.entries }
        ensures swept { (t : Setting) (start : List ℕ) → AreSweepsFrom t start self.now
            → result.now ≡ swept_from t start self.now.done }
        ensures reached { (s : Spec) (num den : ℕ) (start : List ℕ) → IsSound s → 1 ≤ den
            → AreBelow s (ratio num den) F start
            → AreSweepsFrom (setting s num den F) start self.now
            → AreBelow s (ratio num den) F result.now }
    {
        self.classes.as_slice()
    }
}

/// So many lower sweeps.
fn sweep_on<const F: u32, L: Ledger>(
    system: &System,
    x: Fraction,
    sweeps: u64,
    classes: &mut [u64],
    nodes: &mut [u64],
    steps: &mut Steps<L>,
)
    requires fraction_bits { IsFractionBits F }
    requires one_per_class { length classes.old ≡ length system.now.bodies }
    requires one_per_node { length nodes.old ≡ length system.now.nodes }
    ensures sound { IsSound system.now }
    ensures swept { classes.new
        ≡ repeated (sweep_down (setting system.now x.num x.den F)) sweeps classes.old }
    ensures ticks { steps.new ≡ steps.old + sweeps }
{
    system.known();
    for _sweep in 0..sweeps {
        sweep_lo::<F, L>(system, x, classes, nodes, steps);
    }
}
