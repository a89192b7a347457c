//! Sequences, sets and cycles: their part, the room of their number of parts, and what a draw of it
//! puts.
ghost use Rattle.std.specs.Prelude.{◌≡◌, ◌<◌, ◌≤◌, ◌∷◌, ◌++◌, length, replicate, ℕ, List, IfSome};
ghost use Rattle.std.specs.Prelude.{IfNone};
ghost use Rattle.bz_model.specs.Cell.{IsCell};
ghost use Rattle.bz_model.specs.Measures.{HasZero};
ghost use Rattle.count_draw.specs.Kinds.{IsCountedNode};
ghost use Rattle.count_draw.specs.Answer.{OnCount, OnOver};
ghost use Rattle.shape_sampler.specs.State.{HasCountedPart, PutsParts, count_answer, count_tokens};
ghost use Rattle.shape_sampler.specs.State.{count_cells};

use crate::placing::{answer, put_token};
use crate::stepped::Stepped;
use bz_model::cells::Cells;
use class_system::expr::Expr;
use class_system::ids::ExprId;
use class_system::system::System;
use count_draw::drawn_count::CountDrawn;
use object_store::pending::Pending;
use object_store::shape::Shape;
use object_store::token::Token;
use well_founded::examination::Founded;

/// The part of a sequence, set or cycle; None exactly where the node is none of them.
#[inline(always)]
pub(crate) fn counted_part(system: &System, node: ExprId) -> Option<ExprId>
    requires in_range { node.0 < length system.now.nodes }
    ensures part { IfSome result (λ part. HasCountedPart system.now node.0 part.0) }
    ensures none { IfNone result (¬ IsCountedNode system.now node.0) }
{
    match system.node(node) {
        Expr::Seq(part) | Expr::Set(part) | Expr::Cyc(part) => Some(*part),
        _ => None,
    }
}

/// The room of a number of parts: 64 where the part has an object of size 0, and else the room
/// left.
pub(crate) fn room_for(founded: &Founded, part: ExprId, left: u64) -> u64
    requires in_range { part.0 < length founded.now.nodes }
    requires few { left ≤ 1000000 }
    ensures free { HasZero founded.now part.0 → result ≡ 64 }
    ensures taking { ¬ HasZero founded.now part.0 → result ≡ left }
    ensures few { result ≤ 1000000 }
{
    if founded.has_zero(part) { 64 } else { left }
}

/// Puts what was drawn at a sequence, set or cycle: the number of parts as a token, its cell, and
/// the part so many times; where every number up to the room is passed over, the cell alone, and
/// nothing stays pending.
pub(crate) fn put_counted(
    pending: &mut Pending,
    shape: &mut Shape,
    cells: &mut Cells,
    part: ExprId,
    drawn: CountDrawn,
)
    requires pending_spare { 0 < pending.old.spare }
    requires shape_spare { 0 < shape.old.spare }
    requires cells_spare { 0 < cells.old.spare }
    requires cell { OnCount drawn (λ i cell. IsCell cell.k cell.b) }
    requires over { OnOver drawn (λ cell. IsCell cell.k cell.b) }
    requires few { OnCount drawn (λ i cell. i ≤ 1000000) }
    ensures pending { PutsParts part.0 drawn pending.old.items pending.new.items }
    ensures tokens { shape.new.items ≡ shape.old.items ++ count_tokens drawn }
    ensures cells { cells.new.items ≡ cells.old.items ++ count_cells drawn }
{
    match drawn {
        CountDrawn::Count { value, cell } => {
            put_token(shape, Token::Count(value as u32));
            cells.put(cell);
            repeat_first(pending, part, value as u32);
        }
        CountDrawn::Over { cell } => {
            cells.put(cell);
            pending.clear();
        }
        CountDrawn::Straddles { .. } | CountDrawn::Ended | CountDrawn::ReadFault => {}
    }
}

/// Puts a node, so many times, in the place of the first pending one.
fn repeat_first(pending: &mut Pending, node: ExprId, times: u32)
    requires spare { 0 < pending.old.spare }
    ensures { (e : ℕ) (rest : List ℕ) → pending.old.items ≡ e ∷ rest
        → pending.new.items ≡ replicate times node.0 ++ rest }
{
    let _first = pending.pop();
    match pending.push(node, times) {
        Ok(()) => {}
        Err(_) => unreachable!(),
    }
}

/// The answer to a draw of a number of parts, after what was drawn is put.
pub(crate) fn answer_to_count(node: ExprId, drawn: CountDrawn, pending: &Pending) -> Stepped
    ensures { result ≡ count_answer node drawn pending.now.items }
{
    match drawn {
        CountDrawn::Count { .. } => answer(pending),
        CountDrawn::Over { .. } => Stepped::Overshot,
        CountDrawn::Straddles { cell } => Stepped::Straddles { node, cell },
        CountDrawn::Ended => Stepped::Ended,
        CountDrawn::ReadFault => Stepped::ReadFault,
    }
}
