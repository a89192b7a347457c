//! Where marked objects of a node are to be found: at the node itself, or further on.
//!
//! A reference leads to the class's body, and a union with one choice to the part with an atom.
ghost use Rattle.std.specs.Prelude.{◌≡◌, ◌<◌, length, IfOk, IfSome, IfNone, Some};
ghost use Rattle.bz_model.specs.Spec.{node_at};
ghost use Rattle.class_system.specs.Views.{spec_node};
ghost use Rattle.pointing.specs.Atoms.{atomic_nodes};
ghost use Rattle.pointing.specs.Correspondence.{IsPointable};
ghost use Rattle.pointing.specs.Unmarking.{IsResolved, LeadsTo, IsChoice};

use crate::atoms::{count_marked, is_marked};
use class_system::expr::Expr;
use class_system::ids::ExprId;
use class_system::system::System;
use object_store::token::Token;
use std::alloc::AllocError;

/// A node, where there is one of this number.
pub(crate) fn node_of(system: &System, e: ExprId) -> Result<&Expr, AllocError>
    ensures node { IfOk result (λ n. node_at system.now e.0 ≡ Some (spec_node n.now)) }
{
    if e.0 >= system.node_count() {
        return Err(AllocError);
    }
    Ok(system.node(e))
}

/// The node that a node's marked objects are of in the end: a reference leads to the class's body,
/// and a union with one choice to the part, whose pick is written.
pub(crate) fn resolve(
    system: &System,
    atomic: &[bool],
    node: ExprId,
    written: &mut Vec<Token>,
) -> Result<ExprId, AllocError>
    requires pointable { IsPointable system.now }
    requires atomic { atomic.now ≡ atomic_nodes system.now }
    ensures resolved { IfOk result (λ now. IsResolved system.now now.0) }
    ensures leads { IfOk result (λ now. LeadsTo system.now node.0 now.0 written.old.items
        written.new.items) }
{
    let mut now = node;
    'nodes: for _ in 0..u64::MAX {
        let Some(next) = one_on(system, atomic, now, written)? else {
            return Ok(now);
        };
        now = next;
    }
    Err(AllocError)
}

/// The next node on the way from a reference or a union with one choice; None from another node.
fn one_on(
    system: &System,
    atomic: &[bool],
    node: ExprId,
    written: &mut Vec<Token>,
) -> Result<Option<ExprId>, AllocError>
    requires pointable { IsPointable system.now }
    requires atomic { atomic.now ≡ atomic_nodes system.now }
    ensures leads { IfOk result (λ r. IfSome r (λ next. LeadsTo system.now node.0 next.0
        written.old.items written.new.items)) }
    ensures stays { IfOk result (λ r. IfNone r (written.new.items ≡ written.old.items)) }
    ensures resolved { IfOk result (λ r. IfNone r (IsResolved system.now node.0)) }
{
    system.known();
    match node_of(system, node)? {
        Expr::Class(c) => Ok(Some(system.body(*c))),
        Expr::Union(parts) => {
            let items = parts.items();
            if count_marked(atomic, items) != 1 {
                return Ok(None);
            }
            let Some((place, part)) = marked_part(atomic, items, 0) else {
                return Err(AllocError);
            };
            written.push(Token::Pick(place as u32))?;
            Ok(Some(part))
        }
        _ => Ok(None),
    }
}

/// The part that a choice among the marked parts tells, with its place; None where there is none.
pub(crate) fn marked_part(marks: &[bool], parts: &[ExprId], choice: u32) -> Option<(usize, ExprId)>
    ensures choice { IfSome result (λ r. IsChoice marks.now parts.now choice r.0 r.1) }
    ensures within { IfSome result (λ r. r.0 < length parts.now) }
{
    let mut left = choice;
    for i in 0..parts.len() {
        if is_marked(marks, parts[i].0) {
            if left == 0 {
                return Some((i, parts[i]));
            }
            left -= 1;
        }
    }
    None
}
