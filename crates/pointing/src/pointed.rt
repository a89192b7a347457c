//! Pointing a specification.
ghost use Rattle.std.specs.Prelude.{◌≡◌, ◌<◌, ◌^◌, map, length, IfOk, OnOk, IfErr, IfSome, IfNone};
ghost use Rattle.bz_model.specs.Spec as model;
ghost use Rattle.class_system.specs.Limits.{IsWithinLimits};
ghost use Rattle.object_store.specs.Tokens.{size_of, IsOf};
ghost use Rattle.pointing.specs.Atoms.{is_atomic};
ghost use Rattle.pointing.specs.Calls.{AreMarkedAt, IsFirstRanged, IsPointingOf, TellsPointFault};
ghost use Rattle.pointing.specs.Forms.{all_forms};
ghost use Rattle.pointing.specs.PointedSpec.{CanBeMarked, pointed_by, pointed_spec};

use crate::atoms::{atomic_classes, atomic_nodes, is_marked};
use crate::building::lay_out;
use crate::fault::PointFault;
use crate::layout::Layout;
use crate::marking::with_mark;
use crate::naming::named_draft;
use crate::unmarking::without_mark;
use crate::ways::way_to;
use class_system::draft::{Draft, Mode};
use class_system::ids::ExprId;
use class_system::limits::BuildFault;
use class_system::ranges::plain;
use class_system::system::System;
use object_store::shape::Shape;
use std::alloc::{AllocError, Global};
use std::marker::Model;
use well_founded::examination::Founded;

/// A pointed specification, and which nodes of the given one have an object with an atom.
#[derive(Drop)]
pub struct Pointed {
    system: System,
    atomic: Vec<bool>,
}

impl Model for Pointed {
    ghost use Rattle.pointing.specs.Calls.{Pointing};

    ghost Value = { Pointing };

    ghost view = { λ p. record { system = p.system; atomic = p.atomic.items } };
}

/// An object with one of its atoms, numbered from 0 in token order.
#[derive(Drop)]
pub struct Marked {
    pub shape: Shape,
    pub atom: u64,
}

/// Points a specification: class `Pi` of the result has the objects of class i with one atom
/// marked.
///
/// Refused are labels, then ranges that aren't plain, then a class 0 without an atom, then the
/// limits of the pointed specification.
pub fn point(alloc: Global, founded: &Founded) -> Result<Pointed, PointFault>
    ensures system { IfOk result (λ p. p.system ≡ pointed_spec founded.now) }
    ensures pointing { IfOk result (IsPointingOf founded.now) }
    ensures plain { OnOk result (CanBeMarked founded.now) }
    ensures limits { OnOk result (IsWithinLimits (pointed_spec founded.now)) }
    ensures fault { IfErr result (TellsPointFault founded.now) }
{
    let system = founded.system();
    if let Mode::Labelled = system.mode() {
        return Err(PointFault::Labelled);
    }
    if let Some(e) = first_ranged(system) {
        return Err(PointFault::Ranged(e));
    }
    founded.known();
    system.known();
    let classes = atomic_classes(alloc, system)?;
    if !is_marked(&classes, 0) {
        return Err(PointFault::NoAtom);
    }
    let atomic = atomic_nodes(alloc, system, &classes)?;
    let draft = draft_of(alloc, system, &classes, &atomic)?;
    match System::build(alloc, draft) {
        Ok(system) => Ok(Pointed { system, atomic }),
        Err(fault) => {
            if let BuildFault::OutOfMemory = fault {
                return Err(PointFault::OutOfMemory);
            }
            Err(PointFault::Limit(fault))
        }
    }
}

impl Pointed {
    /// The pointed specification. Takes no memory.
    pub fn system(&self) -> &System
        ensures system { result.now ≡ self.now.system }
    {
        &self.system
    }

    /// The object of class 0 with its atom of this number marked, as one of the pointed class 0.
    ///
    /// Atoms are numbered from 0 in token order. Nothing recurses over the object.
    pub fn mark(&self, founded: &Founded, shape: &Shape, atom: u64) -> Result<Shape, AllocError>
        requires same { IsPointingOf founded.now self.now }
        requires is_of { IsOf founded.now 0 shape.now.items }
        requires there { atom < size_of shape.now.items }
        ensures marked { IfOk result (λ m. AreMarkedAt founded.now shape.now.items atom m.items) }
        ensures size { IfOk result (λ m. size_of m.items ≡ size_of shape.now.items) }
    {
        founded.known();
        let system = founded.system();
        system.known();
        let alloc = *self.atomic.allocator();
        let places = way_to(alloc, system, shape, atom)?;
        let object = with_mark(alloc, system, &self.atomic, shape, &places)?;
        Ok(object)
    }

    /// The object of class 0 that an object of the pointed class 0 came from, and the number of the
    /// marked atom.
    ///
    /// Nothing recurses over the object.
    pub fn unmark(&self, founded: &Founded, shape: &Shape) -> Result<Marked, AllocError>
        requires same { IsPointingOf founded.now self.now }
        requires is_of { IsOf self.now.system 0 shape.now.items }
        requires few { length shape.now.items < 2 ^ 32 }
        ensures marked { IfOk result (λ r. AreMarkedAt founded.now r.shape.items r.atom
            shape.now.items) }
        ensures size { IfOk result (λ r. size_of r.shape.items ≡ size_of shape.now.items) }
        ensures there { IfOk result (λ r. r.atom < size_of r.shape.items) }
    {
        founded.known();
        let system = founded.system();
        system.known();
        let alloc = *self.atomic.allocator();
        let (plain, atom) = without_mark(alloc, system, &self.system, &self.atomic, shape)?;
        Ok(Marked { shape: plain, atom })
    }
}

/// The first node whose range isn't the plain one.
fn first_ranged(system: &System) -> Option<ExprId>
    requires unlabelled { system.now.mode ≡ model.Mode.Unlabelled }
    ensures found { IfSome result (λ e. IsFirstRanged system.now e.0) }
    ensures none { IfNone result (CanBeMarked system.now) }
{
    system.known();
    for e in 0..system.node_count() {
        if system.range(ExprId(e)) != plain(system.node(ExprId(e))) {
            return Some(ExprId(e));
        }
    }
    None
}

/// The draft of the pointed specification, from the classes and nodes that have an object with an
/// atom.
fn draft_of(
    alloc: Global,
    system: &System,
    classes: &[bool],
    nodes: &[bool],
) -> Result<Draft, AllocError>
    requires unlabelled { system.now.mode ≡ model.Mode.Unlabelled }
    requires classes { length classes.now ≡ length system.now.names }
    requires nodes { nodes.now ≡ map (is_atomic classes.now) (all_forms system.now) }
    ensures { IfOk result (λ d. d ≡ pointed_by system.now classes.now) }
{
    system.known();
    let draft = named_draft(alloc, classes)?;
    let mut layout = Layout::new(alloc, draft);
    lay_out(alloc, system, classes, nodes, &mut layout)?;
    layout.finish()
}
