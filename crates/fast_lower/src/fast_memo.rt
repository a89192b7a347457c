//! An oracle whose lower sweeps start from a fast vector.
ghost use Rattle.std.specs.Prelude.{◌≡◌, ℕ, ◌+◌, ◌<◌, ◌≤◌, ◌⊎◌, ◌↔◌, max, length, Some, IfOk};
ghost use Rattle.std.specs.Prelude.{IfSome, IsNone};
ghost use Rattle.bz_model.specs.Fraction.{ratio, IsFractionBits};
ghost use Rattle.bz_model.specs.Spec.{Spec};
ghost use Rattle.bz_model.specs.Oracle.{IsSoundTable, AreCosts, cost_between};
ghost use Rattle.bz_model.specs.declared.cell.Bounds.{Bounds};
ghost use Rattle.rounded_map.specs.RoundedMap.{setting, IsPostFixed};
ghost use Rattle.rounded_map.specs.Bounding.{AreBelow};
ghost use Rattle.oracle_memo.specs.Levels.{level_bounds_from, costs};
ghost use Rattle.oracle_memo.specs.Memos.{Memory};

use crate::fast::Fast;
use bz_model::cell::Bounds;
use bz_model::fraction::Fraction;
use bz_model::oracle::Oracle;
use bz_model::steps::Steps;
use newton_upper::Base;
use oracle_memo::Memo;
use std::alloc::{AllocError, Global};
use std::marker::Model;
use std::sync::ledger::Ledger;
use well_founded::examination::Founded;

/// The bounds of all nodes at the levels raised so far, from a fast vector, in units of `2^-F`.
#[derive(Drop)]
pub struct FastMemo<'a, const F: u32> {
    memo: Memo<'a, F>,
}

impl<'a, const F: u32> Model for FastMemo<'a, F> {
    ghost use Rattle.oracle_memo.specs.Memos.{Memory};

    ghost Value = { Memory };

    ghost view = { λ m. m.memo };
}

impl<'a, const F: u32> FastMemo<'a, F> {
    /// An oracle over the base, whose lower sweeps start from the fast vector, with no level
    /// raised.
    ///
    /// The base and the fast vector are of this specification and x. Takes the memory of all six
    /// levels; no call of the memo takes any.
    pub fn make(
        alloc: Global,
        founded: &'a Founded,
        x: Fraction,
        base: Base<F>,
        fast: Fast<F>,
    ) -> Result<FastMemo<'a, F>, AllocError>
        requires fraction_bits { IsFractionBits F }
        requires belongs { IsPostFixed (setting founded.now x.num x.den F) base }
        requires one_per_class { length fast ≡ length founded.now.bodies }
        requires below { AreBelow founded.now (ratio x.num x.den) F fast }
        ensures made { IfOk result (λ memo. memo ≡ record {
          spec = founded.now;
          num = x.num;
          den = x.den;
          start = fast.entry;
          base = base.entry;
          raised = 0;
        }) }
    {
        let memo = Memo::from_start(alloc, founded, x, base, fast.into_entries())?;
        Ok(FastMemo { memo })
    }
}

impl<'a, const F: u32> Oracle<F> for FastMemo<'a, F> {
    ghost spec = { λ m. m.spec };

    ghost x = { λ m. ratio m.num m.den };

    ghost table = { λ m level node. level_bounds_from (setting m.spec m.num m.den F) m.start m.base
        level node };

    ghost raised = { λ m. m.raised };

    ghost cost = { λ m. costs };

    fn raise<L: Ledger>(&mut self, level: u8, steps: &mut Steps<L>) {
        self.memo.raise(level, steps);
    }

    fn bounds(&self, node: u32, level: u8) -> Option<Bounds> {
        self.memo.bounds(node, level)
    }

    fn known(&self) {
        self.memo.known();
    }
}
