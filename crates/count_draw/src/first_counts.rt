//! Numbers of parts that first bits decided, kept from draw to draw.
ghost use Rattle.std.specs.Prelude.{◌≡◌, ℕ, ◌<◌, ◌≤◌, ◌⊎◌, length, IsTrue, IfSome};
ghost use Rattle.class_system.specs.Views.{spec_range};
ghost use Rattle.choice_draw.specs.Decision.{level_for};
ghost use Rattle.count_draw.specs.Kinds.{series_of_kind};
ghost use Rattle.count_draw.specs.Answer.{OnCount};
ghost use Rattle.count_draw.specs.FirstCounts.{TakesAtRoom, AreBoundsOf, AreCountsFor, choice_by};
ghost use Rattle.count_draw.specs.FirstCounts.{counted_choice, kept_at, peeked_cell};

use crate::drawn_count::CountDrawn;
use crate::kind::{CountKind, Counted};
use bit_tape::tape::Peeked;
use bz_model::cell::{Bounds, Cell};
use bz_model::oracle::Oracle;
use class_system::ids::ExprId;
use class_system::ranges::Range;
use std::alloc::{AllocError, Global};
use std::marker::Model;

/// How many first bits are looked up.
const FIRST_BITS: u32 = 11;

/// How many lists of so many bits there are.
const PLACES: usize = 2048;

/// The most bits of a cell that is looked at on level 1.
pub(crate) const LEVEL_BITS: u32 = 10;

/// The greatest number of parts that is kept.
const MOST_PARTS: u64 = 65535;

/// What is known of no bits yet.
const NOTHING: FirstCount = FirstCount { count: 0, bits: 0 };

/// No bounds: they are kept until a level's are found.
const NO_BOUNDS: Bounds = Bounds { lo: 0, hi: 0 };

/// The number of parts that the first bits take, and how many these are; 0 where it isn't known.
#[derive(Clone, Copy, Debug, PartialEq, Eq)]
pub(crate) struct FirstCount {
    pub(crate) count: u16,
    pub(crate) bits: u8,
}

impl FirstCount {
    /// The cell of the first of sixteen bits.
    #[inline]
    pub(crate) fn cell(&self, word: u16) -> Cell
        requires few { self.now.bits ≤ 11 }
        ensures exact { result ≡ peeked_cell word self.now.bits }
    {
        let bits = u32::from(self.bits);
        let k = u64::from(word) >> (16 - bits);
        Cell { k, b: bits }
    }
}

/// The bounds of a part and of the node over it, at one level.
#[derive(Clone, Copy, Debug, PartialEq, Eq)]
pub(crate) struct NodeBounds {
    part: Bounds,
    whole: Bounds,
}

impl NodeBounds {
    /// No bounds yet.
    fn none() -> NodeBounds {
        NodeBounds {
            part: NO_BOUNDS,
            whole: NO_BOUNDS,
        }
    }

    /// Whether these are the oracle's bounds at a level, which is raised.
    #[inline]
    fn are_at<const F: u32, O: Oracle<F>>(
        &self,
        part: ExprId,
        node: ExprId,
        level: u8,
        oracle: &O,
    ) -> bool
        requires node { node.0 < length (O.spec oracle.now).nodes }
        requires part { part.0 < length (O.spec oracle.now).nodes }
        ensures bounds { IsTrue result
            → AreBoundsOf (O.table oracle.now level) part.0 node.0 self.now }
        ensures raised { IsTrue result → level ≤ O.raised oracle.now }
    {
        is_at_level(self.part, part, level, oracle) && is_at_level(self.whole, node, level, oracle)
    }

    /// Takes the oracle's bounds at a level, where it is raised.
    fn begin<const F: u32, O: Oracle<F>>(
        &mut self,
        part: ExprId,
        node: ExprId,
        level: u8,
        oracle: &O,
    )
        requires node { node.0 < length (O.spec oracle.now).nodes }
        requires part { part.0 < length (O.spec oracle.now).nodes }
    {
        self.part = bounds_at(part, level, oracle);
        self.whole = bounds_at(node, level, oracle);
    }
}

/// Whether bounds are those of a node at a level, which is raised.
#[inline]
fn is_at_level<const F: u32, O: Oracle<F>>(
    bounds: Bounds,
    node: ExprId,
    level: u8,
    oracle: &O,
) -> bool
    requires node { node.0 < length (O.spec oracle.now).nodes }
    ensures bounds { IsTrue result → bounds ≡ O.table oracle.now level node.0 }
    ensures raised { IsTrue result → level ≤ O.raised oracle.now }
{
    match oracle.bounds(node.0, level) {
        Some(there) => bounds == there,
        None => false,
    }
}

/// The bounds of a node at a level, where it is raised.
fn bounds_at<const F: u32, O: Oracle<F>>(node: ExprId, level: u8, oracle: &O) -> Bounds
    requires node { node.0 < length (O.spec oracle.now).nodes }
{
    oracle.bounds(node.0, level).unwrap_or(NO_BOUNDS)
}

/// What the first eleven bits decided at one sequence, set or cycle, and what it was decided by: a
/// cell of at most ten bits is looked at on level 1, and one of eleven on level 2.
///
/// A number of parts is kept whatever the room was that it was drawn with, and serves with each room
/// that it is within. A draw by other bounds begins the table anew, so that it never tells of what
/// it isn't for.
#[derive(Drop)]
pub(crate) struct FirstCounts {
    // 0 where nothing is kept.
    bits: u32,
    kind: CountKind,
    range: Range,
    first: NodeBounds,
    second: NodeBounds,
    counts: Vec<FirstCount>,
}

impl Model for FirstCounts {
    ghost use Rattle.class_system.specs.Views.{spec_range};
    ghost use Rattle.count_draw.specs.Kinds.{series_of_kind};
    ghost use Rattle.count_draw.specs.FirstCounts.{CountBounds, AreKept};

    ghost Value = { CountBounds };

    ghost view = { λ t. record {
      bits = t.bits;
      kind = series_of_kind t.kind;
      range = spec_range t.range;
      first = t.first;
      second = t.second;
    } };

    ghost invariant = { λ t. AreKept (record {
      bits = t.bits;
      kind = series_of_kind t.kind;
      range = spec_range t.range;
      first = t.first;
      second = t.second;
    }) t.counts.items };
}

impl FirstCounts {
    /// A table that keeps nothing yet.
    pub(crate) fn empty(alloc: Global) -> Result<FirstCounts, AllocError> {
        let counts = vec![in alloc; NOTHING; PLACES]?;
        Ok(FirstCounts {
            bits: 0,
            kind: CountKind::Seq,
            range: Range { low: 0, high: None },
            first: NodeBounds::none(),
            second: NodeBounds::none(),
            counts,
        })
    }

    /// The number of parts up to the room that the bits read ahead take by the table's bounds, where
    /// it is kept.
    #[inline]
    pub(crate) fn kept(&self, room: u64, ahead: Peeked) -> Option<FirstCount>
        ensures takes { IfSome result (λ first. TakesAtRoom (choice_by self.now) first.count
            (peeked_cell ahead.word first.bits)) }
        ensures ahead { IfSome result (λ first. first.bits ≤ ahead.count) }
        ensures room { IfSome result (λ first. first.count ≤ room) }
    {
        let first = self.counts[usize::from(ahead.word >> 5)];
        let bits = u32::from(first.bits);
        if bits == 0 || bits > ahead.count || u64::from(first.count) > room {
            return None;
        }
        Some(first)
    }

    /// Whether the table is for this node, and by the oracle's bounds at the levels that cells of up
    /// to so many bits are looked at on, which are raised.
    #[inline]
    pub(crate) fn is_for<const F: u32, O: Oracle<F>>(
        &self,
        counted: &Counted,
        node: ExprId,
        bits: u32,
        oracle: &O,
    ) -> bool
        requires node { node.0 < length (O.spec oracle.now).nodes }
        requires part { counted.now.part.0 < length (O.spec oracle.now).nodes }
        requires few { bits ≤ 11 }
        ensures bounds { IsTrue result → AreCountsFor (series_of_kind counted.now.kind) F
            (spec_range counted.now.range) (O.table oracle.now) counted.now.part.0 node.0 bits
            self.now }
        ensures raised { IsTrue result → level_for bits ≤ O.raised oracle.now }
        ensures from_one { IsTrue result → 1 ≤ O.raised oracle.now }
    {
        self.first.are_at(counted.part, node, 1, oracle)
            && (bits <= LEVEL_BITS || self.second.are_at(counted.part, node, 2, oracle))
            && self.bits == F
            && self.kind == counted.kind
            && self.range == counted.range
    }

    /// Keeps what a draw at the node took by its first bits.
    pub(crate) fn learn<const F: u32, O: Oracle<F>>(
        &mut self,
        counted: &Counted,
        node: ExprId,
        drawn: CountDrawn,
        oracle: &O,
    )
        requires node { node.0 < length (O.spec oracle.now).nodes }
        requires part { counted.now.part.0 < length (O.spec oracle.now).nodes }
        requires takes { OnCount drawn (λ i cell. cell.b ≤ 11 → TakesAtRoom
            (counted_choice (series_of_kind counted.now.kind) F (spec_range counted.now.range)
            (O.table oracle.now) counted.now.part.0 node.0) i cell) }
    {
        let CountDrawn::Count { value, cell } = drawn else {
            return;
        };
        if cell.b > FIRST_BITS || value > MOST_PARTS {
            return;
        }
        if !self.is_for(counted, node, cell.b, oracle) {
            self.begin(counted, node, oracle);
            if !self.is_for(counted, node, cell.b, oracle) {
                return;
            }
        }
        self.keep(value as u16, cell);
    }

    /// Forgets what was kept, and takes the oracle's bounds, as far as their levels are raised.
    fn begin<const F: u32, O: Oracle<F>>(&mut self, counted: &Counted, node: ExprId, oracle: &O)
        requires node { node.0 < length (O.spec oracle.now).nodes }
        requires part { counted.now.part.0 < length (O.spec oracle.now).nodes }
    {
        self.bits = F;
        self.kind = counted.kind;
        self.range = counted.range;
        self.first.begin(counted.part, node, 1, oracle);
        self.second.begin(counted.part, node, 2, oracle);
        self.counts.fill(NOTHING);
    }

    /// Keeps a number of parts for all bits that begin with the cell.
    fn keep(&mut self, count: u16, cell: Cell)
        requires { TakesAtRoom (choice_by self.old) count cell }
        ensures { self.new ≡ self.old }
    {
        let width = PLACES >> cell.b;
        let start = cell.k as usize * width;
        if self.counts[start].bits == 0 {
            let first = FirstCount {
                count,
                bits: cell.b as u8,
            };
            put_all(&mut self.counts, start, start + width, first);
        }
    }
}

/// Puts what is known at the places from `start` to before `end`.
fn put_all(counts: &mut [FirstCount], start: usize, end: usize, first: FirstCount)
    requires order { start ≤ end }
    requires room { end ≤ length counts.old }
    ensures length { length counts.new ≡ length counts.old }
    ensures inside { (i : ℕ) → start ≤ i → i < end → kept_at counts.new i ≡ first }
    ensures outside { (i : ℕ) → (i < start) ⊎ (end ≤ i)
        → kept_at counts.new i ≡ kept_at counts.old i }
{
    for i in start..end {
        counts[i] = first;
    }
}
