//! Drafts: what a reader builds, node after node.
ghost use Rattle.std.specs.Prelude.{◌≡◌, ◌<◌, ◌≤◌, ◌^◌, [], map, length, slice_get, Some, IfOk};
ghost use Rattle.std.specs.Prelude.{OnOk, OnErr, IfErr, IfSome, IfNone};
ghost use Rattle.bz_model.specs.Spec.{Spec, node_at, range_at, body_of, plain_range};
ghost use Rattle.class_system.specs.Views.{spec_node, number, spec_range, spec_mode};
ghost use Rattle.class_system.specs.Distinct.{IsMissing, AreDistinct};
ghost use Rattle.class_system.specs.Drafting.{empty_draft, with_name, with_node, with_body};
ghost use Rattle.class_system.specs.Drafting.{HasCountedParts, IsNameFault};

use crate::expr::{Expr, Nodes};
use crate::ids::{ClassId, ExprId, Parts};
use crate::names::Names;
use crate::ranges::{Range, Ranges, plain};
use bz_outside::word::Word;
use std::alloc::{AllocError, Global};
use std::marker::Model;

/// Whether the atoms of objects carry labels.
#[derive(Clone, Copy, Debug, PartialEq, Eq)]
pub enum Mode {
    Unlabelled,
    Labelled,
}

/// Why a class can't be added.
#[derive(Clone, Copy, Debug, PartialEq, Eq)]
pub enum ClassFault {
    /// This class has the name.
    Twice(ClassId),
    /// No class has the name, and memory ran out.
    OutOfMemory,
}

/// A specification that is being built, seen as plain data.
#[derive(Drop)]
pub struct Draft {
    mode: Mode,
    names: Names,
    bodies: Parts,
    nodes: Nodes,
    ranges: Ranges,
}

impl Model for Draft {
    ghost use Rattle.std.specs.Prelude.{map};
    ghost use Rattle.bz_model.specs.Spec.{Spec};
    ghost use Rattle.class_system.specs.Views.{spec_node, number, spec_range, spec_mode};

    ghost Value = { Spec };

    ghost view = { λ d. record {
      mode = spec_mode d.mode;
      names = d.names;
      bodies = map number d.bodies;
      nodes = map spec_node d.nodes;
      ranges = map spec_range d.ranges;
    } };
}

impl Draft {
    /// A draft without classes and nodes. Takes no memory.
    pub fn new(alloc: Global, mode: Mode) -> Draft
        ensures empty { result ≡ empty_draft (spec_mode mode) }
    {
        Draft {
            mode,
            names: Names::new(alloc),
            bodies: Parts::new(alloc),
            nodes: Nodes::new(alloc),
            ranges: Ranges::new(alloc),
        }
    }

    /// Adds a class by its name, and gives its number.
    ///
    /// `Twice` comes exactly where a class has the name, with that class's number. A refusal leaves
    /// the draft unchanged.
    pub fn add_class(&mut self, name: Word) -> Result<ClassId, ClassFault>
        requires few { length self.old.names < 2 ^ 32 }
        ensures number { IfOk result (λ c. c.0 ≡ length self.old.names) }
        ensures missing { OnOk result (IsMissing name self.old.names) }
        ensures ok { OnOk result (self.new ≡ with_name self.old name) }
        ensures fault { IfErr result (IsNameFault self.old.names name) }
        ensures err { OnErr result (self.new ≡ self.old) }
    {
        if let Some(place) = self.names.place(&name) {
            return Err(ClassFault::Twice(ClassId(place as u32)));
        }
        let number = self.names.len() as u32;
        if self.names.push(name).is_err() {
            return Err(ClassFault::OutOfMemory);
        }
        Ok(ClassId(number))
    }

    /// Appends a node, and gives its number. A counted node gets its plain range.
    ///
    /// A refusal, which comes for want of memory alone, leaves the draft unchanged.
    pub fn add_node(&mut self, item: Expr) -> Result<ExprId, AllocError>
        requires few { length self.old.nodes < 2 ^ 32 }
        ensures number { IfOk result (λ e. e.0 ≡ length self.old.nodes) }
        ensures ok { OnOk result
            (self.new ≡ with_node self.old (spec_node item) (plain_range (spec_node item))) }
        ensures err { OnErr result (self.new ≡ self.old) }
    {
        let bounds = plain(&item);
        self.append(item, bounds)
    }

    /// Appends a sequence, a set or a cycle with a range, and gives its number.
    ///
    /// A refusal, which comes for want of memory alone, leaves the draft unchanged.
    pub fn add_counted(&mut self, item: Expr, bounds: Range) -> Result<ExprId, AllocError>
        requires counted { HasCountedParts (spec_node item) }
        requires few { length self.old.nodes < 2 ^ 32 }
        ensures number { IfOk result (λ e. e.0 ≡ length self.old.nodes) }
        ensures ok { OnOk result
            (self.new ≡ with_node self.old (spec_node item) (spec_range bounds)) }
        ensures err { OnErr result (self.new ≡ self.old) }
    {
        self.append(item, bounds)
    }

    fn append(&mut self, item: Expr, bounds: Range) -> Result<ExprId, AllocError>
        requires few { length self.old.nodes < 2 ^ 32 }
        ensures number { IfOk result (λ e. e.0 ≡ length self.old.nodes) }
        ensures ok { OnOk result
            (self.new ≡ with_node self.old (spec_node item) (spec_range bounds)) }
        ensures err { OnErr result (self.new ≡ self.old) }
    {
        let number = self.nodes.items().len() as u32;
        self.ranges.push(bounds)?;
        if self.nodes.push(item).is_err() {
            self.ranges.take_last();
            return Err(AllocError);
        }
        Ok(ExprId(number))
    }

    /// Appends the body of the next class.
    ///
    /// A refusal, which comes for want of memory alone, leaves the draft unchanged.
    pub fn set_body(&mut self, e: ExprId) -> Result<(), AllocError>
        ensures ok { OnOk result (self.new ≡ with_body self.old e.0) }
        ensures err { OnErr result (self.new ≡ self.old) }
    {
        self.bodies.push(e)
    }

    /// The mode. Takes no memory.
    pub fn mode(&self) -> Mode
        ensures mode { spec_mode result ≡ self.now.mode }
    {
        self.mode
    }

    /// The names of the classes. Takes no memory.
    pub fn names(&self) -> &Names
        ensures names { result.now ≡ self.now.names }
    {
        &self.names
    }

    /// The bodies of the classes, in order. Takes no memory.
    pub fn bodies(&self) -> &[ExprId]
        ensures bodies { map number result.now ≡ self.now.bodies }
    {
        self.bodies.items()
    }

    /// The nodes, in order. Takes no memory.
    pub fn nodes(&self) -> &[Expr]
        ensures nodes { map spec_node result.now ≡ self.now.nodes }
    {
        self.nodes.items()
    }

    /// The ranges, one for each node. Takes no memory.
    pub fn ranges(&self) -> &[Range]
        ensures ranges { map spec_range result.now ≡ self.now.ranges }
    {
        self.ranges.items()
    }

    /// The class of a name; None exactly where no class has it. Takes no memory.
    pub fn class_of(&self, name: &Word) -> Option<ClassId>
        requires few { length self.now.names ≤ 2 ^ 32 }
        ensures found { IfSome result (λ c. slice_get self.now.names c.0 ≡ Some name.now) }
        ensures missing { IfNone result (IsMissing name.now self.now.names) }
    {
        let place = self.names.place(name)?;
        Some(ClassId(place as u32))
    }

    /// Does nothing: its clause says that no name is there twice.
    pub fn known(&self)
        ensures distinct { AreDistinct self.now.names }
    {
        self.names.known();
    }

    /// The allocator of the draft.
    pub(crate) fn allocator(&self) -> Global {
        self.nodes.allocator()
    }
}
