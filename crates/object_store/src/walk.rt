//! A walk over the tokens of objects, from node to node in preorder.
//!
//! Classes and products have no token, so the walk goes down through them to the next node that has
//! one. A way down that is longer than there are nodes passes a node twice, and a node that leads
//! back to itself without a token has no object.
ghost use Rattle.std.specs.Prelude.{◌≡◌, ℕ, ◌<◌, ◌∷◌, ◌++◌, [], List, length, IfOk, OnOk, OnErr};
ghost use Rattle.bz_model.specs.Object.{Object, none, more, Belongs};
ghost use Rattle.object_store.specs.Tokens.{tokens_of};
ghost use Rattle.object_store.specs.Seen.{nodes_below};
ghost use Rattle.object_store.specs.Waiting.{AreWaiting};
ghost use Rattle.object_store.specs.Walking.{IsNext};

use crate::pending::Pending;
use crate::token::Token;
use crate::visit::Visit;
use class_system::ids::ExprId;
use class_system::system::System;
use std::alloc::{AllocError, Global};
use std::marker::Model;

/// What a walk comes to next.
#[derive(Clone, Copy, Debug, PartialEq, Eq)]
pub enum Next {
    /// This node, and what it shows of the first object that waits.
    Node(ExprId, Visit),
    /// Nothing waits, and no token is left.
    End,
    /// The tokens that are left aren't those of objects of the nodes that wait.
    NoObject,
}

/// A walk over tokens: the nodes whose objects wait, the next one first, and the tokens left.
#[derive(Drop)]
pub struct Walk<'a> {
    system: &'a System,
    pending: Pending,
    left: &'a [Token],
    way: u32,
}

impl<'a> Model for Walk<'a> {
    ghost use Rattle.object_store.specs.Walking.{Walking, IsOnItsWay};

    ghost Value = { Walking };

    ghost view = { λ w. record {
      system = w.system.now;
      waiting = w.pending.items;
      left = w.left.now;
      way =
          w.way;
    } };

    ghost invariant = { λ w. IsOnItsWay w.system.now w.pending.items w.way };
}

impl<'a> Walk<'a> {
    /// The walk over the tokens of an object of node `e`: the node waits, and all tokens are left.
    pub fn new(
        alloc: Global,
        system: &'a System,
        e: ExprId,
        tokens: &'a [Token],
    ) -> Result<Walk<'a>, AllocError>
        requires in_range { e.0 < length system.now.nodes }
        ensures system { IfOk result (λ w. w.system ≡ system.now) }
        ensures waiting { IfOk result (λ w. w.waiting ≡ e.0 ∷ []) }
        ensures left { IfOk result (λ w. w.left ≡ tokens.now) }
        ensures waits { IfOk result (λ w. (o : Object) → Belongs system.now e.0 o
            → tokens_of o ≡ tokens.now → AreWaiting w.system w.waiting (more o none) w.left) }
    {
        let mut pending = Pending::new(alloc);
        pending.push(e, 1)?;
        Ok(Walk {
            system,
            pending,
            left: tokens,
            way: system.node_count(),
        })
    }

    /// Visits the next node.
    ///
    /// The objects right below the object that is visited wait in its place, and its token is
    /// taken, if it has one. At the end, and where there is no object, the walk stays as it was; so
    /// it does at an error, which comes only where memory runs out.
    pub fn next(&mut self) -> Result<Next, AllocError>
        ensures next { IfOk result (IsNext self.old self.new) }
        ensures err { OnErr result (self.new ≡ self.old) }
    {
        let Some(e) = self.pending.first() else {
            return Ok(if self.left.is_empty() {
                Next::End
            } else {
                Next::NoObject
            });
        };
        self.system.known();
        let Some(visit) = Visit::at(self.system, e, self.left) else {
            return Ok(Next::NoObject);
        };
        if !visit.is_way_down() {
            put_below(self.system, e, visit, &mut self.pending)?;
            self.left = &self.left[1..];
            self.way = self.system.node_count();
        } else {
            if self.way == 0 {
                return Ok(Next::NoObject);
            }
            put_below(self.system, e, visit, &mut self.pending)?;
            self.way -= 1;
        }
        Ok(Next::Node(e, visit))
    }
}

/// Puts the nodes right below a visit in the place of the first pending one. An error leaves what
/// waits as it was.
fn put_below(
    system: &System,
    e: ExprId,
    visit: Visit,
    pending: &mut Pending,
) -> Result<(), AllocError>
    requires in_range { e.0 < length system.now.nodes }
    ensures ok { OnOk result ((first : ℕ) (rest : List ℕ) → pending.old.items ≡ first ∷ rest
        → pending.new.items ≡ nodes_below system.now e.0 visit ++ rest) }
    ensures err { OnErr result (pending.new.items ≡ pending.old.items) }
{
    match visit {
        Visit::Class(body) => pending.repeat_first(body, 1),
        Visit::Product => pending.replace_first(system.node(e).parts()),
        Visit::Empty | Visit::Atom => pending.replace_first(&[]),
        Visit::Union(_, part) => pending.repeat_first(part, 1),
        Visit::Seq(parts, part) | Visit::Set(parts, part) | Visit::Cyc(parts, part) => {
            pending.repeat_first(part, parts)
        }
    }
}
