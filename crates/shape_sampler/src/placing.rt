//! Tokens, cells and nodes, put where there is spare room.
ghost use Rattle.std.specs.Prelude.{◌≡◌, ◌<◌, ◌≤◌, [], ◌∷◌, ◌++◌, map, length, replicate, ℕ, List, OnOk};
ghost use Rattle.bz_model.specs.Cell.{IsCell};
ghost use Rattle.class_system.specs.Views.{number};
ghost use Rattle.shape_sampler.specs.State.{answer_for, union_answer, stop_after, PutsPart};
ghost use Rattle.shape_sampler.specs.State.{drawn_tokens, drawn_cells};
ghost use Rattle.choice_draw.specs.Answer.{OnValue};

use crate::stepped::Stepped;
use bz_model::cell::Cell;
use bz_model::cells::Cells;
use choice_draw::drawn::Drawn;
use class_system::ids::ExprId;
use object_store::pending::Pending;
use object_store::shape::Shape;
use object_store::token::Token;
use std::alloc::AllocError;

/// Appends a token.
#[inline(always)]
pub(crate) fn put_token(shape: &mut Shape, token: Token)
    requires { 0 < shape.old.spare }
    ensures { shape.new.items ≡ shape.old.items ++ token ∷ [] }
{
    match shape.push(token) {
        Ok(()) => {}
        Err(_) => unreachable!(),
    }
}

/// Appends so many dots.
#[inline(always)]
pub(crate) fn put_dots(shape: &mut Shape, times: u32)
    requires { times ≤ shape.old.spare }
    ensures { shape.new.items ≡ shape.old.items ++ replicate times Token.Dot }
{
    for _i in 0..times {
        match shape.push(Token::Dot) {
            Ok(()) => {}
            Err(_) => unreachable!(),
        }
    }
}

/// Puts nodes in the place of the first pending one.
#[inline(always)]
pub(crate) fn replace_first(pending: &mut Pending, nodes: &[ExprId])
    requires spare { length nodes.now ≤ pending.old.spare }
    ensures { (e : ℕ) (rest : List ℕ) → pending.old.items ≡ e ∷ rest
        → pending.new.items ≡ map number nodes.now ++ rest }
{
    let _first = pending.pop();
    match pending.push_all(nodes) {
        Ok(()) => {}
        Err(_) => unreachable!(),
    }
}

/// Takes the first pending node away.
#[inline(always)]
pub(crate) fn drop_first(pending: &mut Pending)
    ensures { (e : ℕ) (rest : List ℕ) → pending.old.items ≡ e ∷ rest → pending.new.items ≡ rest }
{
    let _first = pending.pop();
}

/// Puts a node in the place of the first pending one.
#[inline(always)]
pub(crate) fn put_first(pending: &mut Pending, node: ExprId)
    requires spare { 0 < pending.old.spare }
    ensures { (e : ℕ) (rest : List ℕ) → pending.old.items ≡ e ∷ rest
        → pending.new.items ≡ node.0 ∷ rest }
{
    let _first = pending.pop();
    match pending.push(node, 1) {
        Ok(()) => {}
        Err(_) => unreachable!(),
    }
}

/// The answer after a visit: whether nodes are still pending.
#[inline(always)]
pub(crate) fn answer(pending: &Pending) -> Stepped
    ensures { result ≡ answer_for pending.now.items }
{
    if pending.is_empty() {
        Stepped::Made
    } else {
        Stepped::Moved
    }
}

/// Takes memory for what a draw puts: one node or a run of equal ones, a token and a cell.
#[inline(always)]
pub(crate) fn reserve_drawn(
    pending: &mut Pending,
    shape: &mut Shape,
    cells: &mut Cells,
) -> Result<(), AllocError>
    ensures pending { pending.new.items ≡ pending.old.items }
    ensures tokens { shape.new.items ≡ shape.old.items }
    ensures cells { cells.new.items ≡ cells.old.items }
    ensures pending_spare { OnOk result (0 < pending.new.spare) }
    ensures shape_spare { OnOk result (0 < shape.new.spare) }
    ensures cells_spare { OnOk result (0 < cells.new.spare) }
{
    pending.reserve(1)?;
    shape.reserve(1)?;
    cells.reserve(1)
}

/// Puts what was drawn at a union: the option's token, its cell and its part.
#[inline(always)]
pub(crate) fn put_drawn(
    pending: &mut Pending,
    shape: &mut Shape,
    cells: &mut Cells,
    parts: &[ExprId],
    drawn: Drawn,
)
    requires pending_spare { 0 < pending.old.spare }
    requires shape_spare { 0 < shape.old.spare }
    requires cells_spare { 0 < cells.old.spare }
    requires cell { OnValue drawn (λ i cell. IsCell cell.k cell.b) }
    requires in_range { OnValue drawn (λ i cell. i < length parts.now) }
    requires few { length parts.now ≤ 64 }
    ensures pending { PutsPart (map number parts.now) drawn pending.old.items pending.new.items }
    ensures tokens { shape.new.items ≡ shape.old.items ++ drawn_tokens drawn }
    ensures cells { cells.new.items ≡ cells.old.items ++ drawn_cells drawn }
{
    let Drawn::Value { value, cell } = drawn else {
        return;
    };
    put_token(shape, Token::Pick(value as u32));
    cells.put(cell);
    put_first(pending, parts[value as usize]);
}

/// The answer to a draw at a union.
#[inline(always)]
pub(crate) fn answer_to(node: ExprId, drawn: Drawn) -> Stepped
    ensures { result ≡ union_answer node drawn }
{
    match drawn {
        Drawn::Value { .. } => Stepped::Moved,
        Drawn::Straddles { cell } => Stepped::Straddles { node, cell },
        Drawn::Ended => Stepped::Ended,
        Drawn::ReadFault => Stepped::ReadFault,
    }
}

/// What an answer leaves a session stopped by.
#[inline(always)]
pub(crate) fn stop_of(answer: Stepped) -> Option<Stepped>
    ensures { result ≡ stop_after answer }
{
    match answer {
        Stepped::Straddles { .. } | Stepped::Ended | Stepped::ReadFault => Some(answer),
        Stepped::Moved | Stepped::Made | Stepped::Overshot | Stepped::OutOfMemory => None,
    }
}
