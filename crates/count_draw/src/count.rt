//! Numbers of parts, drawn from bits.
ghost use Rattle.std.specs.Prelude.{◌≡◌, ℕ, ◌-◌, ◌<◌, ◌≤◌, max, List, length, Option, Some};
ghost use Rattle.std.specs.Prelude.{IfSome, IfNone};
ghost use Rattle.bz_model.specs.Fraction.{IsFractionBits};
ghost use Rattle.bz_model.specs.Spec.{node_at, range_at, IsInRange};
ghost use Rattle.bz_model.specs.Cell.{IsCell};
ghost use Rattle.bz_model.specs.Oracle.{LeavesOracle};
ghost use Rattle.class_system.specs.Views.{spec_range};
ghost use Rattle.bit_tape.specs.Tape.{BelongsToShelf, LeavesTape, SkipsBits, bits_of_source};
ghost use Rattle.choice_draw.specs.Decision.{Choice, level_for, level_of};
ghost use Rattle.choice_draw.specs.Draw.{Draw};
ghost use Rattle.choice_draw.specs.Answer.{IsDraw};
ghost use Rattle.choice_draw.specs.IdealOfCell.{IsIdealOfCell, IsOverOfCell};
ghost use Rattle.count_draw.specs.Kinds.{series_of_kind, counted_node, IsCountedNode, SuitsRange};
ghost use Rattle.count_draw.specs.Decision.{count_choice, count_decision, chosen_if, OnTake};
ghost use Rattle.count_draw.specs.Decision as decision;
ghost use Rattle.count_draw.specs.ComparedCounts.{AreCountsCompared};
ghost use Rattle.count_draw.specs.Answer.{OnCount, OnOver, told_count, is_count_fault};

use crate::cache::{KeptRows, KeptTables, NodeTables};
use crate::drawn_count::{CountDrawn, CountTaken};
use crate::kind::{CountChoice, counted_at};
use crate::leaps::{decide_by_rows, draw_by_rows};
use bit_tape::tape::Tape;
use bz_model::cell::Cell;
use bz_model::oracle::Oracle;
use bz_model::steps::Steps;
use bz_outside::shelf::Shelf;
use choice_draw::marks::Marks;
use class_system::ids::ExprId;
use class_system::system::System;
use std::sync::ledger::Ledger;

/// Draws the number of parts of a sequence, set or cycle: takes bits until their cell decides.
///
/// The number is the ideal option of every number of its cell, and `Over` comes only where no
/// option up to the room is ideal for any number of it. At most 60 bits are taken. The level of b
/// bits, one for each ten bits begun, is raised before they are looked at, and no other. Where the
/// shelf tells its content, the answer is fixed by the tape's bits and the oracle's table. Takes no
/// memory.
#[inline(never)]
pub fn draw_count<const F: u32, O: Oracle<F>, S: Shelf, L: Ledger>(
    system: &System,
    node: ExprId,
    room: u64,
    oracle: &mut O,
    tape: &mut Tape,
    shelf: &mut S,
    steps: &mut Steps<L>,
) -> CountDrawn
    requires fraction_bits { IsFractionBits F }
    requires counted { IsCountedNode system.now node.0 }
    requires room { room ≤ 1000000 }
    requires spec { O.spec oracle.old ≡ system.now }
    requires belongs { BelongsToShelf (S.content shelf.old) tape.old }

    ensures drawn { IsDraw (count_decision system.now F (O.table oracle.old) node.0 room)
        (bits_of_source tape.old.source (S.content shelf.old))
        tape.old.used tape.new.used (told_count result tape.new.used) }
    ensures ideal { OnCount result (λ i cell.
        IsIdealOfCell system.now (O.x oracle.old) node.0 cell i) }
    ensures over { OnOver result (λ cell.
        IsOverOfCell system.now (O.x oracle.old) node.0 cell room) }
    ensures in_range { OnCount result (λ i cell. IsInRange i (range_at system.now node.0)
        × (i ≤ room)) }
    ensures raised { O.raised oracle.new
        ≡ max (O.raised oracle.old) (level_for (tape.new.used - tape.old.used)) }
    ensures oracle { LeavesOracle O.spec O.x O.table O.cost O.raised
        oracle.old oracle.new steps.old steps.new }
    ensures tape { LeavesTape S.content S.faults
        (is_count_fault result) shelf.old shelf.new tape.old
        tape.new }
{
    draw_by_rows(
        system,
        node,
        room,
        &mut [KeptRows::empty()],
        oracle,
        tape,
        shelf,
        steps,
    )
}

/// Draws the number of parts of a sequence, set or cycle, as `draw_count` does, where kept tables
/// tell it by the bits that the tape has read ahead.
///
/// `None`, and tape and tables stay as they are, where they don't. Raises no level, asks no shelf
/// and takes no memory. The bounds that numbers are kept by are compared with the oracle's once for
/// each marked node, as long as tables and oracle stay.
#[inline]
pub fn draw_count_ahead<const F: u32, O: Oracle<F>>(
    system: &System,
    node: ExprId,
    room: u64,
    kept: &KeptTables,
    marks: &mut Marks,
    oracle: &O,
    tape: &mut Tape,
) -> Option<CountTaken>
    requires fraction_bits { IsFractionBits F }
    requires counted { IsCountedNode system.now node.0 }
    requires room { room ≤ 1000000 }
    requires spec { O.spec oracle.now ≡ system.now }
    requires compared { AreCountsCompared system.now F (O.table oracle.now) (O.raised oracle.now)
        kept.now marks.old }
    ensures drawn { IfSome result (λ t. (contents : List ℕ → Option (List ℕ))
        → BelongsToShelf contents tape.old
        → IsDraw (count_decision system.now F (O.table oracle.now) node.0 room)
        (bits_of_source tape.old.source contents) tape.old.used tape.new.used
        (Draw.Decided (Choice.Take t.count) t.cell)) }
    ensures ideal { IfSome result (λ t.
        IsIdealOfCell system.now (O.x oracle.now) node.0 t.cell t.count) }
    ensures in_range { IfSome result (λ t. IsInRange t.count (range_at system.now node.0)
        × (t.count ≤ room)) }
    ensures cell { IfSome result (λ t. IsCell t.cell.k t.cell.b) }
    ensures raised { IfSome result (λ t.
        level_for (tape.new.used - tape.old.used) ≤ O.raised oracle.now) }
    ensures skips { IfSome result (λ t. SkipsBits tape.old t.cell.b tape.new) }
    ensures left { IfNone result (tape.new ≡ tape.old) }
    ensures compared { AreCountsCompared system.now F (O.table oracle.now) (O.raised oracle.now)
        kept.now marks.new }
{
    oracle.known();
    system.known();
    let place = kept.place_of(node)?;
    let tables = &kept.tables[place];
    let ahead = tape.peek();
    let first = tables.firsts.kept(room, ahead)?;
    if !kept.is_for(place, system, node, u32::from(first.bits), marks, oracle) {
        return None;
    }
    let cell = first.cell(ahead.word);
    tape.skip(cell.b);
    Some(CountTaken {
        count: u64::from(first.count),
        cell,
    })
}

/// Draws the number of parts of a sequence, set or cycle, as `draw_count` does, by what is kept:
/// where the bits that are read ahead decided before, the number is looked up; else kept values
/// serve, and what a draw decides by its first eleven bits is kept for later ones, as are the values
/// that it comes past. Takes no memory.
pub fn draw_count_kept<const F: u32, O: Oracle<F>, S: Shelf, L: Ledger>(
    system: &System,
    node: ExprId,
    room: u64,
    kept: &mut KeptTables,
    oracle: &mut O,
    tape: &mut Tape,
    shelf: &mut S,
    steps: &mut Steps<L>,
) -> CountDrawn
    requires fraction_bits { IsFractionBits F }
    requires counted { IsCountedNode system.now node.0 }
    requires room { room ≤ 1000000 }
    requires spec { O.spec oracle.old ≡ system.now }
    requires belongs { BelongsToShelf (S.content shelf.old) tape.old }

    ensures drawn { IsDraw (count_decision system.now F (O.table oracle.old) node.0 room)
        (bits_of_source tape.old.source (S.content shelf.old))
        tape.old.used tape.new.used (told_count result tape.new.used) }
    ensures ideal { OnCount result (λ i cell.
        IsIdealOfCell system.now (O.x oracle.old) node.0 cell i) }
    ensures over { OnOver result (λ cell.
        IsOverOfCell system.now (O.x oracle.old) node.0 cell room) }
    ensures in_range { OnCount result (λ i cell. IsInRange i (range_at system.now node.0)
        × (i ≤ room)) }
    ensures raised { O.raised oracle.new
        ≡ max (O.raised oracle.old) (level_for (tape.new.used - tape.old.used)) }
    ensures oracle { LeavesOracle O.spec O.x O.table O.cost O.raised
        oracle.old oracle.new steps.old steps.new }
    ensures tape { LeavesTape S.content S.faults
        (is_count_fault result) shelf.old shelf.new tape.old
        tape.new }
{
    let mut marks = Marks::none();
    if let Some(taken) = draw_count_ahead(system, node, room, kept, &mut marks, oracle, tape) {
        return CountDrawn::Count {
            value: taken.count,
            cell: taken.cell,
        };
    }
    match kept.place_of(node) {
        Some(place) => {
            let tables = &mut kept.tables[place];
            draw_by_tables(system, node, room, tables, oracle, tape, shelf, steps)
        }
        None => draw_count(system, node, room, oracle, tape, shelf, steps),
    }
}

/// Draws by the rows of a node's tables, and keeps what first bits decide.
fn draw_by_tables<const F: u32, O: Oracle<F>, S: Shelf, L: Ledger>(
    system: &System,
    node: ExprId,
    room: u64,
    tables: &mut NodeTables,
    oracle: &mut O,
    tape: &mut Tape,
    shelf: &mut S,
    steps: &mut Steps<L>,
) -> CountDrawn
    requires fraction_bits { IsFractionBits F }
    requires counted { IsCountedNode system.now node.0 }
    requires room { room ≤ 1000000 }
    requires spec { O.spec oracle.old ≡ system.now }
    requires belongs { BelongsToShelf (S.content shelf.old) tape.old }

    ensures drawn { IsDraw (count_decision system.now F (O.table oracle.old) node.0 room)
        (bits_of_source tape.old.source (S.content shelf.old))
        tape.old.used tape.new.used (told_count result tape.new.used) }
    ensures ideal { OnCount result (λ i cell.
        IsIdealOfCell system.now (O.x oracle.old) node.0 cell i) }
    ensures over { OnOver result (λ cell.
        IsOverOfCell system.now (O.x oracle.old) node.0 cell room) }
    ensures in_range { OnCount result (λ i cell. IsInRange i (range_at system.now node.0)
        × (i ≤ room)) }
    ensures raised { O.raised oracle.new
        ≡ max (O.raised oracle.old) (level_for (tape.new.used - tape.old.used)) }
    ensures oracle { LeavesOracle O.spec O.x O.table O.cost O.raised
        oracle.old oracle.new steps.old steps.new }
    ensures tape { LeavesTape S.content S.faults
        (is_count_fault result) shelf.old shelf.new tape.old
        tape.new }
{
    let counted = counted_at(system, node);
    let rows = &mut tables.rows;
    let drawn = draw_by_rows(system, node, room, rows, oracle, tape, shelf, steps);
    tables.firsts.learn(&counted, node, drawn, oracle);
    drawn
}

/// What a cell decides of a number of parts.
///
/// It looks at the bounds of the cell's level, which is raised. `None` exactly where the cell
/// straddles: where the least option that ends after the cell doesn't begin before it, and the room
/// doesn't end before it either. Takes no memory.
pub fn decide_count<const F: u32, O: Oracle<F>>(
    system: &System,
    node: ExprId,
    room: u64,
    cell: Cell,
    oracle: &O,
) -> Option<CountChoice>
    requires fraction_bits { IsFractionBits F }
    requires counted { IsCountedNode system.now node.0 }
    requires room { room ≤ 1000000 }
    requires cell { IsCell cell.k cell.b }
    requires spec { O.spec oracle.now ≡ system.now }
    requires raised { level_of cell ≤ O.raised oracle.now }
    ensures exact { chosen_if result ≡ count_decision system.now F (O.table oracle.now) node.0 room
        cell }
    ensures ideal { OnTake result (IsIdealOfCell system.now (O.x oracle.now) node.0 cell) }
    ensures over { decision.IfPassedOver result
        (IsOverOfCell system.now (O.x oracle.now) node.0 cell room) }
    ensures in_range { OnTake result (λ i. IsInRange i (range_at system.now node.0) × (i ≤ room)) }
{
    oracle.known();
    let counted = counted_at(system, node);
    decide_by_rows(counted, node, room, cell, &mut [KeptRows::empty()], oracle)
}
