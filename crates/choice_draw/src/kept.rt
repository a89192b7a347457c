//! Choices at the unions of a system, kept from draw to draw.
ghost use Rattle.std.specs.Prelude.{◌≡◌, ℕ, ◌-◌, ◌*◌, ◌/◌, ◌^◌, ◌<◌, ◌≤◌, ◌⊎◌, max, map};
ghost use Rattle.std.specs.Prelude.{length, List, Option, IsTrue, IfSome, IfNone, vec_len};
ghost use Rattle.std.specs.Prelude.{slice_index_or, Some};
ghost use Rattle.bz_model.specs.Fraction.{IsFractionBits};
ghost use Rattle.bz_model.specs.Spec.{Node, node_at};
ghost use Rattle.bz_model.specs.Cell.{IsCell};
ghost use Rattle.bz_model.specs.Oracle.{LeavesOracle};
ghost use Rattle.class_system.specs.Views.{number};
ghost use Rattle.class_system.specs.Each.{Each};
ghost use Rattle.bit_tape.specs.Tape.{BelongsToShelf, LeavesTape, SkipsBits, bits_of_source};
ghost use Rattle.choice_draw.specs.Decision.{Choice, level_for, IsUnion, union_parts};
ghost use Rattle.choice_draw.specs.Decision.{union_choice, union_decision};
ghost use Rattle.choice_draw.specs.Draw.{Draw};
ghost use Rattle.choice_draw.specs.IdealOfCell.{IsIdealOfCell};
ghost use Rattle.choice_draw.specs.Answer.{IsDraw, OnValue, told_draw, is_draw_fault};
ghost use Rattle.choice_draw.specs.KeptChoices.{TakesFirst, AreFor, choice_by, kept_at};
ghost use Rattle.choice_draw.specs.Compared.{AreCompared, kept_for};

use crate::drawn::Drawn;
use crate::level_bounds::LevelBounds;
use crate::marks::Marks;
use crate::union::{draw_union, parts_of};
use bit_tape::tape::{Peeked, Tape};
use bz_model::cell::Cell;
use bz_model::oracle::Oracle;
use bz_model::steps::Steps;
use bz_outside::shelf::Shelf;
use class_system::expr::Expr;
use class_system::ids::ExprId;
use class_system::system::System;
use std::alloc::{AllocError, Global};
use std::marker::Model;
use std::sync::ledger::Ledger;

/// How many first bits are looked up.
const FIRST_BITS: u32 = 11;

/// How many places there are, one for each list of so many bits.
const PLACES: usize = 2048;

/// The most bits of a cell that is looked at on level 1.
const LEVEL_BITS: u32 = 10;

/// What is kept at a place where nothing is known yet.
const NOTHING: FirstChoice = FirstChoice { option: 0, bits: 0 };

/// The option that the first bits take, and how many these are; 0 where it isn't known.
#[derive(Clone, Copy, Debug, PartialEq, Eq)]
pub(crate) struct FirstChoice {
    option: u8,
    bits: u8,
}

/// An option that the bits read ahead take, with its cell.
#[derive(Clone, Copy, Debug, PartialEq, Eq)]
pub struct Taken {
    pub option: u64,
    pub cell: Cell,
}

/// What the first eleven bits decided at one union, and the bounds that it was decided by: a cell
/// of at most ten bits is looked at on level 1, and one of eleven on level 2.
///
/// A draw by other bounds begins it anew, so that it never tells of what it isn't for.
#[derive(Drop)]
pub(crate) struct UnionTable {
    first: LevelBounds,
    second: LevelBounds,
    choices: Vec<FirstChoice>,
}

impl Model for UnionTable {
    ghost use Rattle.choice_draw.specs.KeptChoices.{KeptBounds, AreKept};

    ghost Value = { KeptBounds };

    ghost view = { λ t. record { first = t.first; second = t.second } };

    ghost invariant = { λ t. AreKept
        (record { first = t.first; second = t.second }) t.choices.items };
}

impl UnionTable {
    /// A table for a union of n parts that keeps nothing yet.
    fn empty(alloc: Global, n: usize) -> Result<UnionTable, AllocError> {
        let first = LevelBounds::empty(alloc, n)?;
        let second = LevelBounds::empty(alloc, n)?;
        let choices = vec![in alloc; NOTHING; PLACES]?;
        Ok(UnionTable {
            first,
            second,
            choices,
        })
    }

    /// The option that the bits read ahead take by the table's bounds, where it is kept.
    #[inline]
    fn find(&self, ahead: Peeked) -> Option<Taken>
        ensures takes { IfSome result (λ t. TakesFirst (choice_by self.now) t.option t.cell) }
        ensures ahead { IfSome result (λ t. (t.cell.k ≡ ahead.word / 2 ^ (16 - t.cell.b))
            × (t.cell.b ≤ ahead.count)) }
    {
        // The first eleven of sixteen bits.
        let choice = self.choices[usize::from(ahead.word >> 5)];
        let bits = u32::from(choice.bits);
        if bits == 0 || bits > ahead.count {
            return None;
        }
        let k = u64::from(ahead.word) >> (16 - bits);
        Some(Taken {
            option: u64::from(choice.option),
            cell: Cell { k, b: bits },
        })
    }

    /// Whether the table's bounds are the oracle's at the levels that cells of up to so many bits
    /// are looked at on, which are raised.
    #[inline]
    fn is_for<const F: u32, O: Oracle<F>>(
        &self,
        parts: &[ExprId],
        node: ExprId,
        bits: u32,
        oracle: &O,
    ) -> bool
        requires node { node.0 < length (O.spec oracle.now).nodes }
        requires parts { Each (λ p. p.0 < length (O.spec oracle.now).nodes) parts.now }
        requires few { bits ≤ 11 }
        ensures bounds { IsTrue result
            → AreFor (O.table oracle.now) node.0 (map number parts.now) bits self.now }
        ensures raised { IsTrue result → level_for bits ≤ O.raised oracle.now }
    {
        if !self.first.is_for(parts, node, 1, oracle) {
            return false;
        }
        bits <= LEVEL_BITS || self.second.is_for(parts, node, 2, oracle)
    }

    /// Keeps what a draw at the union took by its first bits.
    fn learn<const F: u32, O: Oracle<F>>(
        &mut self,
        parts: &[ExprId],
        node: ExprId,
        drawn: Drawn,
        oracle: &O,
    )
        requires node { node.0 < length (O.spec oracle.now).nodes }
        requires parts { Each (λ p. p.0 < length (O.spec oracle.now).nodes) parts.now }
        requires few { length parts.now ≤ 64 }
        requires in_range { OnValue drawn (λ i cell. i < length parts.now) }
        requires takes { OnValue drawn (λ i cell. cell.b ≤ 11 → TakesFirst
            (union_choice (O.table oracle.now) node.0 (map number parts.now)) i cell) }
    {
        let Drawn::Value { value, cell } = drawn else {
            return;
        };
        if cell.b > FIRST_BITS {
            return;
        }
        if !self.is_for(parts, node, cell.b, oracle) {
            self.begin(parts, node, oracle);
            if !self.is_for(parts, node, cell.b, oracle) {
                return;
            }
        }
        self.keep(value as u8, cell);
    }

    /// Forgets what was kept, and takes the oracle's bounds, as far as their levels are raised.
    fn begin<const F: u32, O: Oracle<F>>(&mut self, parts: &[ExprId], node: ExprId, oracle: &O)
        requires node { node.0 < length (O.spec oracle.now).nodes }
        requires parts { Each (λ p. p.0 < length (O.spec oracle.now).nodes) parts.now }
    {
        self.first.begin(parts, node, 1, oracle);
        self.second.begin(parts, node, 2, oracle);
        self.choices.fill(NOTHING);
    }

    /// Keeps an option for all bits that begin with the cell.
    fn keep(&mut self, option: u8, cell: Cell)
        requires { TakesFirst (choice_by self.old) option cell }
        ensures { self.new ≡ self.old }
    {
        let width = PLACES >> cell.b;
        let start = cell.k as usize * width;
        if self.choices[start].bits == 0 {
            let choice = FirstChoice {
                option,
                bits: cell.b as u8,
            };
            put_all(&mut self.choices, start, start + width, choice);
        }
    }
}

/// Puts a choice at the places from `start` to before `end`.
fn put_all(choices: &mut [FirstChoice], start: usize, end: usize, choice: FirstChoice)
    requires order { start ≤ end }
    requires room { end ≤ length choices.old }
    ensures length { length choices.new ≡ length choices.old }
    ensures inside { (i : ℕ) → start ≤ i → i < end → kept_at choices.new i ≡ choice }
    ensures outside { (i : ℕ) → (i < start) ⊎ (end ≤ i)
        → kept_at choices.new i ≡ kept_at choices.old i }
{
    for i in start..end {
        choices[i] = choice;
    }
}

/// What draws at the unions of a system decided by their first eleven bits.
///
/// Each union's choices are kept with the bounds that they were decided by, and found anew for
/// others: so any of these serve any draw, and only its time depends on them.
#[derive(Drop)]
pub struct KeptUnions {
    // How many unions come before each node.
    places: Vec<usize>,
    tables: Vec<UnionTable>,
}

impl KeptUnions {
    /// Tables for a system's unions, that keep nothing yet. Further memory is never taken.
    pub fn make(alloc: Global, system: &System) -> Result<KeptUnions, AllocError> {
        let mut places = Vec::new(alloc);
        let mut tables = Vec::new(alloc);
        for node in system.nodes() {
            places.push(tables.len())?;
            if let Expr::Union(parts) = node {
                tables.push(UnionTable::empty(alloc, parts.items().len())?)?;
            }
        }
        Ok(KeptUnions { places, tables })
    }

    /// Nothing, for no system. Takes no memory.
    pub fn none(alloc: Global) -> KeptUnions {
        KeptUnions {
            places: Vec::new(alloc),
            tables: Vec::new(alloc),
        }
    }

    /// Where the table of a node stands; `None` where it has none.
    #[inline]
    fn place_of(&self, node: ExprId) -> Option<usize>
        ensures inside { IfSome result (λ place. place < vec_len self.now.tables) }
        ensures place { IfSome result (λ place.
            slice_index_or self.now.places.items node.0 0 ≡ place) }
    {
        let place = *self.places.get(node.0 as usize)?;
        if place < self.tables.len() {
            Some(place)
        } else {
            None
        }
    }

    /// Whether the table of a union, which stands at this place, has the oracle's bounds at the
    /// levels that cells of up to so many bits are looked at on, which are raised.
    ///
    /// On level 1 they are compared where the union isn't marked, and it is marked where they are
    /// the same.
    #[inline]
    fn is_for<const F: u32, O: Oracle<F>>(
        &self,
        place: usize,
        parts: &[ExprId],
        node: ExprId,
        bits: u32,
        marks: &mut Marks,
        oracle: &O,
    ) -> bool
        requires inside { place < vec_len self.now.tables }
        requires place { slice_index_or self.now.places.items node.0 0 ≡ place }
        requires node { node.0 < length (O.spec oracle.now).nodes }
        requires parts { Each (λ p. p.0 < length (O.spec oracle.now).nodes) parts.now }
        requires union { map number parts.now ≡ union_parts (node_at (O.spec oracle.now) node.0) }
        requires few { bits ≤ 11 }
        requires compared { AreCompared (O.spec oracle.now) (O.table oracle.now)
            (O.raised oracle.now) self.now marks.old }
        ensures bounds { IsTrue result → AreFor (O.table oracle.now) node.0 (map number parts.now)
            bits (kept_for self.now node.0) }
        ensures raised { IsTrue result → level_for bits ≤ O.raised oracle.now }
        ensures compared { AreCompared (O.spec oracle.now) (O.table oracle.now)
            (O.raised oracle.now) self.now marks.new }
    {
        let table = &self.tables[place];
        if !marks.has(node) {
            if !table.first.is_for(parts, node, 1, oracle) {
                return false;
            }
            marks.put(node);
        }
        bits <= LEVEL_BITS || table.second.is_for(parts, node, 2, oracle)
    }

    /// Keeps what a draw at a union took by its first bits.
    fn learn<const F: u32, O: Oracle<F>>(
        &mut self,
        system: &System,
        node: ExprId,
        drawn: Drawn,
        oracle: &O,
    )
        requires union { IsUnion system.now node.0 }
        requires spec { O.spec oracle.now ≡ system.now }
        requires in_range { OnValue drawn (λ i cell.
            i < length (union_parts (node_at system.now node.0))) }
        requires takes { OnValue drawn (λ i cell. cell.b ≤ 11
            → TakesFirst (union_decision system.now (O.table oracle.now) node.0) i cell) }
    {
        if let Some(place) = self.place_of(node) {
            let table = &mut self.tables[place];
            table.learn(parts_of(system, node), node, drawn, oracle);
        }
    }
}

/// Draws the number of a union's part, as `draw_union` does, where kept choices tell it by the bits
/// that the tape has read ahead.
///
/// `None`, and tape and tables stay as they are, where they don't. Raises no level, asks no shelf
/// and takes no memory. The bounds that choices are kept by are compared with the oracle's once for
/// each marked node, as long as tables and oracle stay.
#[inline]
pub fn draw_ahead<const F: u32, O: Oracle<F>>(
    system: &System,
    node: ExprId,
    parts: &[ExprId],
    kept: &KeptUnions,
    marks: &mut Marks,
    oracle: &O,
    tape: &mut Tape,
) -> Option<Taken>
    requires fraction_bits { IsFractionBits F }
    requires union { node_at system.now node.0 ≡ Some (Node.Union (map number parts.now)) }
    requires spec { O.spec oracle.now ≡ system.now }
    requires compared { AreCompared system.now (O.table oracle.now) (O.raised oracle.now)
        kept.now marks.old }
    ensures drawn { IfSome result (λ t. (contents : List ℕ → Option (List ℕ))
        → BelongsToShelf contents tape.old
        → IsDraw (union_decision system.now (O.table oracle.now) node.0)
        (bits_of_source tape.old.source contents) tape.old.used tape.new.used
        (Draw.Decided (Choice.Take t.option) t.cell)) }
    ensures ideal { IfSome result (λ t.
        IsIdealOfCell system.now (O.x oracle.now) node.0 t.cell t.option) }
    ensures in_range { IfSome result (λ t. t.option < length parts.now) }
    ensures cell { IfSome result (λ t. IsCell t.cell.k t.cell.b) }
    ensures raised { IfSome result (λ t.
        level_for (tape.new.used - tape.old.used) ≤ O.raised oracle.now) }
    ensures skips { IfSome result (λ t. SkipsBits tape.old t.cell.b tape.new) }
    ensures left { IfNone result (tape.new ≡ tape.old) }
    ensures compared { AreCompared system.now (O.table oracle.now) (O.raised oracle.now)
        kept.now marks.new }
{
    oracle.known();
    system.known();
    let place = kept.place_of(node)?;
    let table = &kept.tables[place];
    let taken = table.find(tape.peek())?;
    if !kept.is_for(place, parts, node, taken.cell.b, marks, oracle) {
        return None;
    }
    tape.skip(taken.cell.b);
    Some(taken)
}

/// Draws the number of a union's part, as `draw_union` does, by kept choices: where the bits that
/// are read ahead decided before, they are looked up, and what a draw decides by its first eleven
/// bits is kept for later ones. Takes no memory.
pub fn draw_union_kept<const F: u32, O: Oracle<F>, S: Shelf, L: Ledger>(
    system: &System,
    node: ExprId,
    kept: &mut KeptUnions,
    oracle: &mut O,
    tape: &mut Tape,
    shelf: &mut S,
    steps: &mut Steps<L>,
) -> Drawn
    requires fraction_bits { IsFractionBits F }
    requires union { IsUnion system.now node.0 }
    requires spec { O.spec oracle.old ≡ system.now }
    requires belongs { BelongsToShelf (S.content shelf.old) tape.old }

    ensures drawn { IsDraw (union_decision system.now (O.table oracle.old) node.0)
        (bits_of_source tape.old.source (S.content shelf.old))
        tape.old.used tape.new.used (told_draw Choice.Take result tape.new.used) }
    ensures ideal { OnValue result (λ i cell.
        IsIdealOfCell system.now (O.x oracle.old) node.0 cell i) }
    ensures in_range { OnValue result (λ i cell.
        i < length (union_parts (node_at system.now node.0))) }
    ensures raised { O.raised oracle.new
        ≡ max (O.raised oracle.old) (level_for (tape.new.used - tape.old.used)) }
    ensures oracle { LeavesOracle O.spec O.x O.table O.cost O.raised
        oracle.old oracle.new steps.old steps.new }
    ensures tape { LeavesTape S.content S.faults (is_draw_fault result) shelf.old shelf.new tape.old
        tape.new }
{
    let parts = parts_of(system, node);
    let mut marks = Marks::none();
    if let Some(taken) = draw_ahead(system, node, parts, kept, &mut marks, oracle, tape) {
        return Drawn::Value {
            value: taken.option,
            cell: taken.cell,
        };
    }
    let drawn = draw_union(system, node, oracle, tape, shelf, steps);
    kept.learn(system, node, drawn, oracle);
    drawn
}
