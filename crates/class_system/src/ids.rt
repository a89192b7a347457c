//! Numbers of classes and nodes, and lists of nodes.
ghost use Rattle.std.specs.Prelude.{◌≡◌, [], ◌∷◌, ◌++◌, OnOk, OnErr};

use smallvec::SmallVec;
use std::alloc::{AllocError, Global};
use std::marker::Model;

/// A class, by its number from 0.
#[derive(Clone, Copy, Debug, PartialEq, Eq)]
pub struct ClassId(pub u32);

/// A node, by its number from 0.
#[derive(Clone, Copy, Debug, Default, PartialEq, Eq)]
pub struct ExprId(pub u32);

/// A list of nodes, as the parts of a union or product, or the bodies of classes. Up to four nodes
/// are kept in the value itself, and more in an allocation.
#[derive(Debug, Drop)]
pub struct Parts {
    content: SmallVec<ExprId, 4>,
}

impl Model for Parts {
    ghost use Rattle.std.specs.Prelude.{List};
    ghost use Rattle.class_system.specs.declared.ids.ExprId.{ExprId};

    ghost Value = { List ExprId };

    ghost view = { λ p. p.content.items };
}

impl Parts {
    /// The empty list. Takes no memory.
    pub fn new(alloc: Global) -> Parts
        ensures empty { result ≡ [] }
    {
        Parts {
            content: SmallVec::new(alloc),
        }
    }

    /// Appends a node. A refusal, which comes for want of memory alone, leaves the list unchanged.
    pub fn push(&mut self, item: ExprId) -> Result<(), AllocError>
        ensures ok { OnOk result (self.new ≡ self.old ++ item ∷ []) }
        ensures err { OnErr result (self.new ≡ self.old) }
    {
        self.content.push(item)?;
        Ok(())
    }

    /// The nodes in order. Takes no memory.
    pub fn items(&self) -> &[ExprId]
        ensures items { result.now ≡ self.now }
    {
        self.content.as_slice()
    }
}
