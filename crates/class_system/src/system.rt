//! Systems: sound specifications within the limits.
ghost use Rattle.std.specs.Prelude.{◌≡◌, ◌<◌, map, length, slice_get, Some, IfSome, IfNone, IfOk};
ghost use Rattle.std.specs.Prelude.{IfErr, OnOk};
ghost use Rattle.bz_model.specs.Spec.{Spec, node_at, range_at, body_of};
ghost use Rattle.class_system.specs.Views.{spec_node, number, spec_range, spec_mode};
ghost use Rattle.class_system.specs.Distinct.{IsMissing, AreDistinct};
ghost use Rattle.class_system.specs.Sound.{IsSound};
ghost use Rattle.class_system.specs.CanonicalText.{canonical_text};
ghost use Rattle.class_system.specs.Limits.{IsWithinLimits, TellsLimit};

use crate::canonical;
use crate::draft::{Draft, Mode};
use crate::expr::Expr;
use crate::ids::{ClassId, ExprId};
use crate::limits::{BuildFault, test_limits};
use crate::ranges::Range;
use bz_outside::word::Word;
use std::alloc::{AllocError, Global};
use std::marker::Model;

/// A sound specification within the limits, seen as plain data.
#[derive(Drop)]
pub struct System {
    content: Draft,
}

impl Model for System {
    ghost use Rattle.bz_model.specs.Spec.{Spec};
    ghost use Rattle.class_system.specs.Limits.{IsAllowed};

    ghost Value = { Spec };

    ghost view = { λ s. s.content };

    ghost invariant = { λ s. IsAllowed s.content };
}

impl System {
    /// Makes a system of a sound draft within the limits; it is seen as the draft was.
    ///
    /// The limits, in the order in which they are told: 64 classes, 64 parts of a union or product,
    /// depth 64, 512 nodes. `OutOfMemory` may come before any of them.
    pub fn build(alloc: Global, draft: Draft) -> Result<System, BuildFault>
        requires sound { IsSound draft }
        ensures same { IfOk result (λ system. system ≡ draft) }
        ensures ok { OnOk result (IsWithinLimits draft) }
        ensures fault { IfErr result (TellsLimit draft) }
    {
        test_limits(alloc, &draft)?;
        Ok(System { content: draft })
    }

    /// Does nothing: its clauses say what is true of every system.
    pub fn known(&self)
        ensures sound { IsSound self.now }
        ensures limits { IsWithinLimits self.now }
        ensures distinct { AreDistinct self.now.names }
    {
        self.content.known();
    }

    /// The mode. Takes no memory.
    pub fn mode(&self) -> Mode
        ensures mode { spec_mode result ≡ self.now.mode }
    {
        self.content.mode()
    }

    /// How many classes there are, from 1 to 64. Takes no memory.
    pub fn class_count(&self) -> u32
        ensures count { result ≡ length self.now.names }
    {
        self.content.names().len() as u32
    }

    /// The name of a class. Takes no memory.
    pub fn name(&self, c: ClassId) -> &Word
        requires in_range { c.0 < length self.now.names }
        ensures name { slice_get self.now.names c.0 ≡ Some result.now }
    {
        self.content.names().name(c.0 as usize)
    }

    /// The class of a name; None exactly where no class has it. Takes no memory.
    pub fn class_of(&self, name: &Word) -> Option<ClassId>
        ensures found { IfSome result (λ c. slice_get self.now.names c.0 ≡ Some name.now) }
        ensures missing { IfNone result (IsMissing name.now self.now.names) }
    {
        self.content.class_of(name)
    }

    /// The body of a class. Takes no memory.
    pub fn body(&self, c: ClassId) -> ExprId
        requires in_range { c.0 < length self.now.names }
        ensures body { body_of self.now c.0 ≡ Some result.0 }
    {
        self.content.bodies()[c.0 as usize]
    }

    /// How many nodes there are, from 1 to 512. Takes no memory.
    pub fn node_count(&self) -> u32
        ensures count { result ≡ length self.now.nodes }
    {
        self.content.nodes().len() as u32
    }

    /// A node. Takes no memory.
    pub fn node(&self, e: ExprId) -> &Expr
        requires in_range { e.0 < length self.now.nodes }
        ensures node { node_at self.now e.0 ≡ Some (spec_node result.now) }
    {
        &self.content.nodes()[e.0 as usize]
    }

    /// The range of a counted node. Takes no memory.
    pub fn range(&self, e: ExprId) -> Range
        requires in_range { e.0 < length self.now.nodes }
        ensures range { range_at self.now e.0 ≡ Some (spec_range result) }
    {
        self.content.ranges()[e.0 as usize]
    }

    /// The bodies of the classes, in order. Takes no memory.
    pub fn bodies(&self) -> &[ExprId]
        ensures bodies { map number result.now ≡ self.now.bodies }
    {
        self.content.bodies()
    }

    /// The nodes, in order. Takes no memory.
    pub fn nodes(&self) -> &[Expr]
        ensures nodes { map spec_node result.now ≡ self.now.nodes }
    {
        self.content.nodes()
    }

    /// The ranges, one for each node; that of a node that isn't counted has no meaning. Takes no
    /// memory.
    pub fn ranges(&self) -> &[Range]
        ensures ranges { map spec_range result.now ≡ self.now.ranges }
    {
        self.content.ranges()
    }

    /// The canonical text: the mode, and a line for each class with its sum.
    ///
    /// Parentheses stand exactly round a union that is a part of a union or product, and round a
    /// product that is a part of a product.
    pub fn to_text(&self) -> Result<Vec<u8>, AllocError>
        ensures text { IfOk result (λ text. text.items ≡ canonical_text self.now) }
    {
        canonical::print(self.content.allocator(), &self.content)
    }
}
