//! Nodes of a specification.
ghost use Rattle.std.specs.Prelude.{◌≡◌, [], ◌∷◌, ◌++◌, map, OnOk, OnErr};
ghost use Rattle.class_system.specs.Views.{spec_node, number};
ghost use Rattle.class_system.specs.NodeOrder.{parts_of};

use crate::ids::{ClassId, ExprId, Parts};
use bz_outside::word::Word;
use std::alloc::{AllocError, Global};
use std::marker::Model;
use std::slice;

/// A node of an expression. An empty word means the plain leaf.
#[derive(Debug, Drop)]
pub enum Expr {
    /// A neutral object, of size 0.
    Empty(Word),
    /// An atom, of size 1.
    Atom(Word),
    /// A reference to a class.
    Class(ClassId),
    /// An object of one of the parts, with the part's place.
    Union(Parts),
    /// A tuple of one object of each part.
    Product(Parts),
    /// A sequence of objects of the part.
    Seq(ExprId),
    /// A labelled set of objects of the part.
    Set(ExprId),
    /// A labelled cycle of objects of the part.
    Cyc(ExprId),
}

impl Expr {
    /// The parts of the node, from left to right: none of a leaf and a reference, and one of a
    /// sequence, a set and a cycle. Takes no memory.
    pub fn parts(&self) -> &[ExprId]
        ensures parts { map number result.now ≡ parts_of (spec_node self.now) }
    {
        match self {
            Expr::Empty(_) | Expr::Atom(_) | Expr::Class(_) => &[],
            Expr::Union(parts) | Expr::Product(parts) => parts.items(),
            Expr::Seq(part) | Expr::Set(part) | Expr::Cyc(part) => slice::from_ref(part),
        }
    }
}

/// A list of nodes; a node's number is its place.
#[derive(Debug, Drop)]
pub struct Nodes {
    content: Vec<Expr>,
}

impl Model for Nodes {
    ghost use Rattle.std.specs.Prelude.{List};
    ghost use Rattle.class_system.specs.declared.expr.Expr.{Expr};

    ghost Value = { List Expr };

    ghost view = { λ n. n.content.items };
}

impl Nodes {
    /// The empty list. Takes no memory.
    pub fn new(alloc: Global) -> Nodes
        ensures empty { result ≡ [] }
    {
        Nodes {
            content: Vec::new(alloc),
        }
    }

    /// Appends a node. A refusal, which comes for want of memory alone, leaves the list unchanged.
    pub fn push(&mut self, item: Expr) -> Result<(), AllocError>
        ensures ok { OnOk result (self.new ≡ self.old ++ item ∷ []) }
        ensures err { OnErr result (self.new ≡ self.old) }
    {
        self.content.push(item)?;
        Ok(())
    }

    /// The nodes in order. Takes no memory.
    pub fn items(&self) -> &[Expr]
        ensures items { result.now ≡ self.now }
    {
        self.content.as_slice()
    }

    /// The allocator of the list.
    pub(crate) fn allocator(&self) -> Global {
        *self.content.allocator()
    }
}
