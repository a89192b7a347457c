//! Draws of numbers of parts by rows of kept values.
ghost use Rattle.std.specs.Prelude.{◌≡◌, ℕ, ◌+◌, ◌-◌, ◌<◌, ◌≤◌, max, length, Some, None, IfSome};
ghost use Rattle.std.specs.Prelude.{IfNone};
ghost use Rattle.bz_model.specs.Fraction.{IsFractionBits};
ghost use Rattle.bz_model.specs.Spec.{range_at, IsInRange};
ghost use Rattle.bz_model.specs.Cell.{IsCell};
ghost use Rattle.bz_model.specs.Oracle.{LeavesOracle};
ghost use Rattle.class_system.specs.Views.{spec_range};
ghost use Rattle.bit_tape.specs.Tape.{BelongsToShelf, LeavesTape, bits_of_source};
ghost use Rattle.choice_draw.specs.Decision.{level_for, level_of};
ghost use Rattle.choice_draw.specs.Answer.{IsDraw};
ghost use Rattle.choice_draw.specs.IdealOfCell.{IsIdealOfCell, IsOverOfCell};
ghost use Rattle.choice_draw.specs.Further.{further_cell};
ghost use Rattle.count_draw.specs.Kinds.{series_of_kind, IsCountedNode, SuitsRange};
ghost use Rattle.count_draw.specs.Decision.{count_choice, count_decision, chosen_if, choice_meant};
ghost use Rattle.count_draw.specs.FirstCounts.{counted_choice};
ghost use Rattle.count_draw.specs.Answer.{OnCount, OnOver, told_count, is_count_fault};

use crate::cache::KeptRows;
use crate::choice::top_of;
use crate::drawn_count::CountDrawn;
use crate::kind::{CountChoice, Counted, counted_at};
use crate::partial_sums::CountSums;
use bit_tape::tape::{BitAnswer, Tape};
use bz_model::cell::Cell;
use bz_model::oracle::Oracle;
use bz_model::steps::Steps;
use bz_outside::shelf::Shelf;
use choice_draw::cells::{further, half_of, level_at};
use class_system::ids::ExprId;
use class_system::system::System;
use std::sync::ledger::Ledger;

/// Draws by rows of kept values: the first at level 1, the last at a higher level.
///
/// What a cell decides is decided by its halves, too, while their level is the same. So where the
/// bits read ahead decide nothing all together up to the level's last, none of them does.
pub(crate) fn draw_by_rows<const F: u32, O: Oracle<F>, S: Shelf, L: Ledger>(
    system: &System,
    node: ExprId,
    room: u64,
    rows: &mut [KeptRows],
    oracle: &mut O,
    tape: &mut Tape,
    shelf: &mut S,
    steps: &mut Steps<L>,
) -> CountDrawn
    requires fraction_bits { IsFractionBits F }
    requires rows { 0 < length rows.old }
    requires counted { IsCountedNode system.now node.0 }
    requires room { room ≤ 1000000 }
    requires spec { O.spec oracle.old ≡ system.now }
    requires belongs { BelongsToShelf (S.content shelf.old) tape.old }

    ensures drawn { IsDraw (count_decision system.now F (O.table oracle.old) node.0 room)
        (bits_of_source tape.old.source (S.content shelf.old))
        tape.old.used tape.new.used (told_count result tape.new.used) }
    ensures ideal { OnCount result (λ i cell.
        IsIdealOfCell system.now (O.x oracle.old) node.0 cell i) }
    ensures over { OnOver result (λ cell.
        IsOverOfCell system.now (O.x oracle.old) node.0 cell room) }
    ensures in_range { OnCount result (λ i cell. IsInRange i (range_at system.now node.0)
        × (i ≤ room)) }
    ensures raised { O.raised oracle.new
        ≡ max (O.raised oracle.old) (level_for (tape.new.used - tape.old.used)) }
    ensures oracle { LeavesOracle O.spec O.x O.table O.cost O.raised
        oracle.old oracle.new steps.old steps.new }
    ensures tape { LeavesTape S.content S.faults
        (is_count_fault result) shelf.old shelf.new tape.old
        tape.new }
{
    oracle.known();
    let counted = counted_at(system, node);
    let mut cell = Cell { k: 0, b: 0 };
    'bits: while cell.b < 60 {
        match tape.next_bit(shelf) {
            BitAnswer::Bit(bit) => cell = half_of(cell, bit),
            BitAnswer::Ended => return CountDrawn::Ended,
            BitAnswer::ReadFault => return CountDrawn::ReadFault,
        }
        oracle.raise(level_at(cell.b), steps);
        if let Some(choice) = decide_by_rows(counted, node, room, cell, rows, oracle) {
            return CountDrawn::of(choice, cell);
        }
        let ahead = tape.peek();
        let word = ahead.word;
        let many = ahead.count.min((10 - cell.b % 10) % 10);
        if let Some(found) = least_further(counted, node, room, cell, word, many, rows, oracle) {
            tape.skip(found.bits);
            let last = further(cell, word, found.bits);
            return CountDrawn::of(found.choice, last);
        }
        tape.skip(many);
        cell = further(cell, word, many);
    }
    CountDrawn::Straddles { cell }
}

/// How many further bits decide, and what they decide.
#[derive(Clone, Copy)]
pub(crate) struct Found {
    pub(crate) bits: u32,
    pub(crate) choice: CountChoice,
}

/// The least number of further bits of the word, up to `many`, at which the cell decides.
fn least_further<const F: u32, O: Oracle<F>>(
    counted: Counted,
    node: ExprId,
    room: u64,
    cell: Cell,
    word: u16,
    many: u32,
    rows: &mut [KeptRows],
    oracle: &O,
) -> Option<Found>
    requires fraction_bits { IsFractionBits F }
    requires rows { 0 < length rows.old }
    requires suits { SuitsRange (series_of_kind counted.kind) (spec_range counted.range) }
    requires room { room ≤ 1000000 }
    requires cell { IsCell cell.k cell.b }
    requires many { many ≤ 16 }
    requires total { cell.b + many ≤ 60 }
    requires node { node.0 < length (O.spec oracle.now).nodes }
    requires part { counted.part.0 < length (O.spec oracle.now).nodes }
    requires raised { level_for (cell.b + many) ≤ O.raised oracle.now }
    ensures bits { IfSome result (λ found. found.bits ≤ many) }
    ensures decides { IfSome result (λ found. Some (choice_meant found.choice)
        ≡ counted_choice (series_of_kind counted.kind) F (spec_range counted.range)
        (O.table oracle.now) counted.part.0 node.0 room (further_cell cell word found.bits)) }
    ensures none_before { IfSome result (λ found. (j : ℕ) → 1 ≤ j → j < found.bits
        → counted_choice (series_of_kind counted.kind) F (spec_range counted.range)
        (O.table oracle.now) counted.part.0 node.0 room (further_cell cell word j) ≡ None) }
    ensures none { IfNone result
        (counted_choice (series_of_kind counted.kind) F (spec_range counted.range)
        (O.table oracle.now) counted.part.0 node.0 room (further_cell cell word many) ≡ None) }
{
    let far = further(cell, word, many);
    let last = decide_by_rows(counted, node, room, far, rows, oracle)?;
    'fronts: for bits in 1..many {
        let near = further(cell, word, bits);
        if let Some(choice) = decide_by_rows(counted, node, room, near, rows, oracle) {
            return Some(Found { bits, choice });
        }
    }
    Some(Found {
        bits: many,
        choice: last,
    })
}

/// What a cell decides at this sequence, set or cycle, by the rows of its level.
#[inline]
pub(crate) fn decide_by_rows<const F: u32, O: Oracle<F>>(
    counted: Counted,
    node: ExprId,
    room: u64,
    cell: Cell,
    rows: &mut [KeptRows],
    oracle: &O,
) -> Option<CountChoice>
    requires fraction_bits { IsFractionBits F }
    requires rows { 0 < length rows.old }
    requires suits { SuitsRange (series_of_kind counted.kind) (spec_range counted.range) }
    requires room { room ≤ 1000000 }
    requires cell { IsCell cell.k cell.b }
    requires node { node.0 < length (O.spec oracle.now).nodes }
    requires part { counted.part.0 < length (O.spec oracle.now).nodes }
    requires raised { level_of cell ≤ O.raised oracle.now }
    ensures exact { chosen_if result ≡ count_choice (series_of_kind counted.kind) F
        (spec_range counted.range)
        (O.table oracle.now (level_of cell) counted.part.0)
        (O.table oracle.now (level_of cell) node.0) room cell }
{
    let level = level_at(cell.b);
    let part = oracle.bounds(counted.part.0, level)?;
    let whole = oracle.bounds(node.0, level)?;
    let Counted { kind, range, .. } = counted;
    let top = top_of(range.high, room);
    let sums = CountSums::<F>::new(kind, u64::from(range.low), part, whole, top);
    let last = rows.len() - 1;
    let at = last.min(usize::from(level) - 1);
    rows[at].decide(&sums, range.high, room, cell)
}
