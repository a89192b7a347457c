//! Values of the counted nodes of a system, kept from draw to draw.
ghost use Rattle.std.specs.Prelude.{◌≡◌, ◌<◌, ◌≤◌, IsTrue, IfSome, vec_len, slice_index_or};
ghost use Rattle.bz_model.specs.Fraction.{IsFractionBits};
ghost use Rattle.bz_model.specs.Cell.{IsCell};
ghost use Rattle.bz_model.specs.Spec.{IsWithinHigh};
ghost use Rattle.choice_draw.specs.Decision.{choice_of, level_for};
ghost use Rattle.count_draw.specs.Kinds.{IsCountedNode};
ghost use Rattle.count_draw.specs.ComparedCounts.{AreCountsCompared, IsKeptCount, kept_for};
ghost use Rattle.count_draw.specs.Decision.{top_option, chosen_if};
ghost use Rattle.count_draw.specs.Table.{options_of};
ghost use Rattle.count_draw.specs.Row.{AreFor};

use crate::choice::choose;
use crate::first_counts::{FirstCounts, LEVEL_BITS};
use crate::kind::{CountChoice, CountKind, counted_at};
use crate::partial_sums::CountSums;
use crate::prefix_sums::{LowerRow, UpperRow};
use bz_model::cell::{Bounds, Cell};
use bz_model::oracle::Oracle;
use choice_draw::marks::Marks;
use class_system::expr::Expr;
use class_system::ids::ExprId;
use class_system::system::System;
use std::alloc::{AllocError, Global};
use std::marker::Model;

/// The lower and upper values of the first options, and what they are kept for.
///
/// A decision for something else begins them anew, so that they never tell of what they aren't for.
#[derive(Drop)]
pub(crate) struct KeptRows {
    // 0 where nothing is kept.
    bits: u32,
    kind: CountKind,
    low: u64,
    part: Bounds,
    whole: Bounds,
    lower: LowerRow,
    upper: UpperRow,
}

impl Model for KeptRows {
    ghost use Rattle.std.specs.Prelude.{◌<◌};
    ghost use Rattle.count_draw.specs.Kinds.{series_of_kind};
    ghost use Rattle.count_draw.specs.Row.{RowsKey, IsLowerRow, IsUpperRow};

    ghost Value = { RowsKey };

    ghost view = { λ r. record {
      bits = r.bits;
      filling = record {
        kind = series_of_kind r.kind;
        low = r.low;
        part =
            r.part;
        whole = r.whole;
        room = 0;
      };
    } };

    ghost invariant = { λ r. 0 < r.bits
        → IsLowerRow r.bits (record {
          kind = series_of_kind r.kind;
          low = r.low;
          part = r.part;
          whole =
              r.whole;
          room = 0;
        }) r.lower
        × IsUpperRow r.bits (record {
          kind = series_of_kind r.kind;
          low = r.low;
          part = r.part;
          whole =
              r.whole;
          room = 0;
        }) r.upper };
}

impl KeptRows {
    /// Rows that keep nothing yet.
    pub(crate) fn empty() -> KeptRows {
        let nothing = Bounds { lo: 0, hi: 0 };
        KeptRows {
            bits: 0,
            kind: CountKind::Seq,
            low: 0,
            part: nothing,
            whole: nothing,
            lower: LowerRow::empty(),
            upper: UpperRow::empty(),
        }
    }

    /// What a cell decides among the options of these sums.
    #[inline]
    pub(crate) fn decide<const F: u32>(
        &mut self,
        sums: &CountSums<F>,
        high: Option<u32>,
        room: u64,
        cell: Cell,
    ) -> Option<CountChoice>
        requires fraction_bits { IsFractionBits F }
        requires top { sums.now.room ≡ top_option high room }
        requires within { IsWithinHigh sums.now.low high }
        requires cell { IsCell cell.k cell.b }
        ensures exact { chosen_if result ≡ choice_of (options_of F sums.now high room) cell }
    {
        self.keep_for(sums);
        choose(sums, &mut self.lower, &mut self.upper, high, room, cell)
    }

    /// Begins anew where the rows are kept for something else.
    #[inline]
    fn keep_for<const F: u32>(&mut self, sums: &CountSums<F>)
        requires fraction_bits { IsFractionBits F }
        ensures { AreFor F sums.now self.new }
    {
        if !self.is_for(sums) {
            self.begin(sums);
        }
    }

    /// Whether the rows are kept for these sums.
    #[inline]
    fn is_for<const F: u32>(&self, sums: &CountSums<F>) -> bool
        ensures { IsTrue result → AreFor F sums.now self.now }
    {
        self.bits == F
            && self.part == sums.part()
            && self.whole == sums.whole()
            && self.kind == sums.kind()
            && self.low == sums.low()
    }

    /// Begins anew for these sums.
    fn begin<const F: u32>(&mut self, sums: &CountSums<F>)
        requires fraction_bits { IsFractionBits F }
        ensures { AreFor F sums.now self.new }
    {
        self.bits = F;
        self.kind = sums.kind();
        self.low = sums.low();
        self.part = sums.part();
        self.whole = sums.whole();
        self.lower.start(sums);
        self.upper.start(sums);
    }
}

/// What draws keep of one sequence, set or cycle: which numbers of parts first bits decided, and
/// rows of values at level 1, and at a higher level.
#[derive(Drop)]
pub(crate) struct NodeTables {
    pub(crate) firsts: FirstCounts,
    pub(crate) rows: [KeptRows; 2],
}

/// What draws of numbers of parts keep of each sequence, set and cycle of a system: what was decided
/// by the first eleven bits, and values of the first 256 options, at the levels 1 and 2.
///
/// All of this is kept with what it was found for, and found anew for something else: so any tables
/// serve any draw, and only its time depends on them.
#[derive(Drop)]
pub struct KeptTables {
    // How many sequences, sets and cycles come before each node.
    places: Vec<usize>,
    pub(crate) tables: Vec<NodeTables>,
}

impl KeptTables {
    /// Tables for a system's nodes, that keep nothing yet. Further memory is never taken.
    pub fn make(alloc: Global, system: &System) -> Result<KeptTables, AllocError> {
        let mut places = Vec::new(alloc);
        let mut tables = Vec::new(alloc);
        for node in system.nodes() {
            places.push(tables.len())?;
            if let Expr::Seq(_) | Expr::Set(_) | Expr::Cyc(_) = node {
                tables.push(NodeTables {
                    firsts: FirstCounts::empty(alloc)?,
                    rows: [KeptRows::empty(), KeptRows::empty()],
                })?;
            }
        }
        Ok(KeptTables { places, tables })
    }

    /// Nothing, for no system. Takes no memory.
    pub fn none(alloc: Global) -> KeptTables {
        KeptTables {
            places: Vec::new(alloc),
            tables: Vec::new(alloc),
        }
    }

    /// Where the tables of a node stand; `None` where it has none.
    #[inline]
    pub(crate) fn place_of(&self, node: ExprId) -> Option<usize>
        ensures inside { IfSome result (λ place. place < vec_len self.now.tables) }
        ensures place { IfSome result (λ place.
            slice_index_or self.now.places.items node.0 0 ≡ place) }
    {
        let place = *self.places.get(node.0 as usize)?;
        if place < self.tables.len() {
            Some(place)
        } else {
            None
        }
    }

    /// Whether what first bits decided at a sequence, set or cycle, which stands at this place, was
    /// decided by the oracle's bounds at the levels that cells of up to so many bits are looked at
    /// on, which are raised.
    ///
    /// For at most ten bits they aren't compared where the node is marked. It is marked where they
    /// are the same.
    #[inline]
    pub(crate) fn is_for<const F: u32, O: Oracle<F>>(
        &self,
        place: usize,
        system: &System,
        node: ExprId,
        bits: u32,
        marks: &mut Marks,
        oracle: &O,
    ) -> bool
        requires inside { place < vec_len self.now.tables }
        requires place { slice_index_or self.now.places.items node.0 0 ≡ place }
        requires counted { IsCountedNode system.now node.0 }
        requires spec { O.spec oracle.now ≡ system.now }
        requires few { bits ≤ 11 }
        requires compared { AreCountsCompared system.now F (O.table oracle.now)
            (O.raised oracle.now) self.now marks.old }
        ensures bounds { IsTrue result → IsKeptCount system.now F (O.table oracle.now) node.0 bits
            (kept_for self.now node.0) }
        ensures raised { IsTrue result → level_for bits ≤ O.raised oracle.now }
        ensures compared { AreCountsCompared system.now F (O.table oracle.now)
            (O.raised oracle.now) self.now marks.new }
    {
        if bits <= LEVEL_BITS && marks.has(node) {
            return true;
        }
        let counted = counted_at(system, node);
        let firsts = &self.tables[place].firsts;
        if !firsts.is_for(&counted, node, bits, oracle) {
            return false;
        }
        marks.put(node);
        true
    }
}
