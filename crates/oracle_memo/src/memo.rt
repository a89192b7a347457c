//! An oracle that keeps the bounds of the levels raised so far.
ghost use Rattle.std.specs.Prelude.{◌≡◌, ℕ, ◌+◌, ◌<◌, ◌≤◌, ◌⊎◌, ◌↔◌, max, map, length, Some, IfOk};
ghost use Rattle.std.specs.Prelude.{IfSome, IsNone};
ghost use Rattle.bz_model.specs.Fraction.{ratio, IsFractionBits};
ghost use Rattle.bz_model.specs.Spec.{Spec};
ghost use Rattle.bz_model.specs.Oracle.{IsSoundTable, AreCosts, cost_between};
ghost use Rattle.bz_model.specs.declared.cell.Bounds.{Bounds};
ghost use Rattle.rounded_map.specs.RoundedMap.{setting, values_up, IsPostFixed};
ghost use Rattle.rounded_map.specs.Bounding.{AreBelow};
ghost use Rattle.kleene_lower.specs.Lower.{zeros};
ghost use Rattle.oracle_memo.specs.Levels.{level_bounds_from, level_down_from, level_up, cost_at};
ghost use Rattle.oracle_memo.specs.Levels.{costs};
ghost use Rattle.oracle_memo.specs.Memos.{Memory};

use crate::rows::{WHOLE, write_row};
use crate::sweeps::{sweep_on, sweeps_to};
use bz_model::cell::Bounds;
use bz_model::fraction::Fraction;
use bz_model::oracle::Oracle;
use bz_model::steps::Steps;
use class_system::system::System;
use kleene_lower::Lower;
use newton_upper::Base;
use rounded_map::{eval_hi, eval_lo};
use std::alloc::{AllocError, Global};
use std::marker::Model;
use std::sync::ledger::Ledger;
use well_founded::examination::Founded;

/// How many levels there are.
const LEVELS: usize = 6;

/// The bounds of all nodes of a specification at the levels raised so far, in units of `2^-F`.
#[derive(Drop)]
pub struct Memo<'a, const F: u32> {
    founded: &'a Founded,
    x: Fraction,
    start: Vec<u64>,
    base: Base<F>,
    raised: u8,
    lower: Lower<F>,
    upper: Vec<u64>,
    low_values: Vec<u64>,
    high_values: Vec<u64>,
    table: Vec<Bounds>,
}

impl<'a, const F: u32> Model for Memo<'a, F> {
    ghost use Rattle.std.specs.Prelude.{vec_len};
    ghost use Rattle.rounded_map.specs.RoundedMap.{setting};
    ghost use Rattle.oracle_memo.specs.Memos.{Memory, IsMemory};

    ghost Value = { Memory };

    ghost view = { λ m. record {
      spec = m.founded.now;
      num = m.x.num;
      den = m.x.den;
      start = m.start.items;
      base = m.base;
      raised = m.raised;
    } };

    ghost invariant = { λ m. IsMemory (setting m.founded.now m.x.num m.x.den F) m.start.items m.base
        m.raised m.lower m.upper.items m.table.items (vec_len m.low_values)
        (vec_len m.high_values) };
}

impl<'a, const F: u32> Memo<'a, F> {
    /// An oracle over the base, whose lower sweeps start from zero, with no level raised.
    ///
    /// The base is post-fixed for this specification and x. Takes the memory of all six levels; no
    /// call of the memo takes any.
    pub fn make(
        alloc: Global,
        founded: &'a Founded,
        x: Fraction,
        base: Base<F>,
    ) -> Result<Memo<'a, F>, AllocError>
        requires fraction_bits { IsFractionBits F }
        requires belongs { IsPostFixed (setting founded.now x.num x.den F) base }
        ensures made { IfOk result (λ memo. memo ≡ record {
          spec = founded.now;
          num = x.num;
          den = x.den;
          start = zeros (setting founded.now x.num x.den F);
          base = base.entry;
          raised = 0;
        }) }
    {
        let system = founded.system();
        system.known();
        let start = vec![in alloc; 0; system.bodies().len()]?;
        Memo::from_start(alloc, founded, x, base, start)
    }

    /// An oracle over the base, whose lower sweeps start from a vector that is reached, with no
    /// level raised.
    ///
    /// The base is post-fixed for this specification and x. Takes the memory of all six levels; no
    /// call of the memo takes any.
    pub fn from_start(
        alloc: Global,
        founded: &'a Founded,
        x: Fraction,
        base: Base<F>,
        start: Vec<u64>,
    ) -> Result<Memo<'a, F>, AllocError>
        requires fraction_bits { IsFractionBits F }
        requires belongs { IsPostFixed (setting founded.now x.num x.den F) base }
        requires one_per_class { length start.items ≡ length founded.now.bodies }
        requires reached { AreBelow founded.now (ratio x.num x.den) F start.items }
        ensures made { IfOk result (λ memo. memo ≡ record {
          spec = founded.now;
          num = x.num;
          den = x.den;
          start = start.items;
          base = base.entry;
          raised = 0;
        }) }
    {
        let system = founded.system();
        system.known();
        let nodes = system.nodes().len();
        let first = start.to_vec(alloc)?;
        let lower = Lower::from_start(alloc, system, first)?;
        let upper = base.values().to_vec(alloc)?;
        let low_values = vec![in alloc; 0; nodes]?;
        let high_values = vec![in alloc; 0; nodes]?;
        let table = vec![in alloc; WHOLE; LEVELS * nodes]?;
        Ok(Memo {
            founded,
            x,
            start,
            base,
            raised: 0,
            lower,
            upper,
            low_values,
            high_values,
            table,
        })
    }

    /// The highest raised level, 0 where none is. Takes no memory.
    pub fn levels(&self) -> u8
        ensures raised { result ≡ self.now.raised }
    {
        self.raised
    }

    /// The base. Takes no memory.
    pub fn base(&self) -> &Base<F>
        ensures base { result.now ≡ self.now.base }
    {
        &self.base
    }

    /// The lower class values of the highest raised level, and the start where none is. Takes no
    /// memory.
    pub fn lower(&self) -> &[u64]
        ensures vector { result.now ≡ level_down_from (setting self.now.spec self.now.num
            self.now.den F) self.now.start self.now.raised }
        ensures one_per_class { length result.now ≡ length self.now.spec.bodies }
    {
        self.lower.values()
    }

    /// The upper class values of the highest raised level, and the base where none is. Takes no
    /// memory.
    pub fn upper(&self) -> &[u64]
        ensures vector { result.now ≡ level_up (setting self.now.spec self.now.num self.now.den F)
            self.now.base self.now.raised }
        ensures one_per_class { length result.now ≡ length self.now.spec.bodies }
    {
        self.upper.as_slice()
    }

    /// Raises all levels up to this one. Takes no memory.
    #[inline(always)]
    pub fn raise_to<L: Ledger>(&mut self, level: u8, steps: &mut Steps<L>)
        requires level { level ≤ 6 }
        ensures raised { self.new ≡ record self.old { raised = max self.old.raised level } }
        ensures six { self.new.raised ≤ 6 }
        ensures ticks { steps.new + cost_at self.old.raised ≡ steps.old
            + cost_at (max self.old.raised level) }
    {
        for _level in self.raised..level {
            self.raise_next(steps);
        }
    }

    /// Raises one level more.
    #[cold]
    #[inline(never)]
    fn raise_next<L: Ledger>(&mut self, steps: &mut Steps<L>)
        requires below { self.old.raised < 6 }
        ensures next { self.new ≡ record self.old { raised = self.old.raised + 1 } }
        ensures ticks { steps.new + cost_at self.old.raised ≡ steps.old
            + cost_at (self.old.raised + 1) }
    {
        let founded = self.founded;
        let system = founded.system();
        let x = self.x;
        let sweeps = sweeps_to(self.raised + 1);
        let further = sweeps - sweeps_to(self.raised);
        self.lower.advance_to::<L>(system, x, sweeps, steps);
        sweep_on::<F, L>(
            system,
            x,
            further,
            &mut self.upper,
            &mut self.high_values,
            steps,
        );
        eval_lo::<F, L>(system, x, self.lower.values(), &mut self.low_values, steps);
        eval_there::<F, L>(system, x, &self.upper, &mut self.high_values, steps);
        let start = usize::from(self.raised) * self.low_values.len();
        write_row(&mut self.table, start, &self.low_values, &self.high_values);
        self.raised += 1;
    }
}

impl<'a, const F: u32> Oracle<F> for Memo<'a, F> {
    ghost spec = { λ m. m.spec };

    ghost x = { λ m. ratio m.num m.den };

    ghost table = { λ m level node. level_bounds_from (setting m.spec m.num m.den F) m.start m.base
        level node };

    ghost raised = { λ m. m.raised };

    ghost cost = { λ m. costs };

    #[inline(always)]
    fn raise<L: Ledger>(&mut self, level: u8, steps: &mut Steps<L>) {
        self.raise_to(level, steps);
    }

    #[inline(always)]
    fn bounds(&self, node: u32, level: u8) -> Option<Bounds> {
        if level == 0 || level > self.raised {
            return None;
        }
        let nodes = self.low_values.len();
        let row = usize::from(level) - 1;
        Some(self.table[row * nodes + node as usize])
    }

    fn known(&self) {
        let _x = self.x;
        self.founded.known();
        self.founded.system().known();
    }
}

/// The upper value of each node at a post-fixed vector, where each node has one.
///
/// `classes` has one entry per class and `nodes` one per node. `nodes` is overwritten. One tick.
/// Takes no memory.
pub fn eval_there<const F: u32, L: Ledger>(
    system: &System,
    x: Fraction,
    classes: &[u64],
    nodes: &mut [u64],
    steps: &mut Steps<L>,
)
    requires fraction_bits { IsFractionBits F }
    requires post_fixed { IsPostFixed (setting system.now x.num x.den F) classes.now }
    requires one_per_class { length classes.now ≡ length system.now.bodies }
    requires one_per_node { length nodes.old ≡ length system.now.nodes }
    ensures values { map Some nodes.new ≡ values_up (setting system.now x.num x.den F) classes.now }
    ensures length { length nodes.new ≡ length nodes.old }
    ensures ticks { steps.new ≡ steps.old + 1 }
{
    system.known();
    match eval_hi::<F, L>(system, x, classes, nodes, steps) {
        Ok(()) => {}
        Err(_) => unreachable!(),
    }
}
