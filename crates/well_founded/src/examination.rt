//! The examination of a specification, and what a founded one tells.
ghost use Rattle.std.specs.Prelude.{◌≡◌, ◌≢◌, ℕ, ◌<◌, ◌≤◌, ◌⊎◌, ◌↔◌, length, OnOk, IfOk, IfErr};
ghost use Rattle.std.specs.Prelude.{IfSome, IfNone, IsTrue};
ghost use Rattle.bz_model.specs.Spec.{Spec};
ghost use Rattle.bz_model.specs.Object.{Object, Belongs};
ghost use Rattle.bz_model.specs.Measures.{HasZero};
ghost use Rattle.bz_model.specs.WellFounded.{IsWellFounded};
ghost use Rattle.class_system.specs.Sound.{IsSound};
ghost use Rattle.well_founded.specs.EmptyObjects.{has_empty};
ghost use Rattle.well_founded.specs.Foundedness.{LacksObject, RepeatsZero};
ghost use Rattle.well_founded.specs.Marking.{AreMarked};
ghost use Rattle.well_founded.specs.Examination.{IsLeast, EachHasObject, TellsCause, IsFoundedBy};

use crate::cause::UnfoundedCause;
use crate::class_graph::{first_round, leads};
use crate::inhabited::{is_marked, mark};
use class_system::expr::Expr;
use class_system::ids::{ClassId, ExprId};
use class_system::system::System;
use std::alloc::Global;
use std::marker::Model;

/// A well-founded specification, seen as plain data.
#[derive(Drop)]
pub struct Founded {
    system: System,
    zero: Vec<bool>,
}

impl Model for Founded {
    ghost use Rattle.bz_model.specs.Spec.{Spec};
    ghost use Rattle.well_founded.specs.Examination.{IsFoundedBy};

    ghost Value = { Spec };

    ghost view = { λ f. f.system };

    ghost invariant = { λ f. IsFoundedBy f.system f.zero.items };
}

/// A refused specification, with the cause.
#[derive(Drop)]
pub struct Unfounded {
    pub cause: UnfoundedCause,
    pub system: System,
}

/// Takes a specification that is well founded: every class has an object, and for each class and
/// each size there is a bound on the nodes of its objects.
///
/// Any other is handed back with the first cause. Takes memory for two marks and one set of classes
/// for each node, and one set for each class; `OutOfMemory` hands the specification back too.
pub fn examine(alloc: Global, system: System) -> Result<Founded, Unfounded>
    ensures same { IfOk result (λ founded. founded ≡ system) }
    ensures well_founded { OnOk result (IsWellFounded system) }

    ensures cause { IfErr result (λ refusal. TellsCause system refusal.cause) }
    ensures unfounded { IfErr result
        (λ refusal. refusal.cause ≢ UnfoundedCause.OutOfMemory → ¬ IsWellFounded system) }
    ensures unchanged { IfErr result (λ refusal. refusal.system ≡ system) }
{
    system.known();
    match judge(alloc, &system) {
        Ok(zero) => Ok(Founded { system, zero }),
        Err(cause) => Err(Unfounded { cause, system }),
    }
}

impl Founded {
    /// The specification. Takes no memory.
    pub fn system(&self) -> &System
        ensures system { result.now ≡ self.now }
    {
        &self.system
    }

    /// Whether the node has an object of size 0. Takes no memory.
    pub fn has_zero(&self, e: ExprId) -> bool
        requires in_range { e.0 < length self.now.nodes }
        ensures exact { IsTrue result ↔ HasZero self.now e.0 }
        ensures computed { result ≡ has_empty self.now e.0 }
    {
        self.system.known();
        is_marked(&self.zero, e)
    }

    /// Does nothing: its clauses say what is true of every founded specification.
    pub fn known(&self)
        ensures well_founded { IsWellFounded self.now }
        ensures inhabited { (e : ℕ) → e < length self.now.nodes
            → (o : Object) × Belongs self.now e o }
        ensures decided { (e : ℕ) → HasZero self.now e ⊎ (¬ HasZero self.now e) }
    {
        let _zero = &self.zero;
        self.system.known();
    }
}

/// The marks of the nodes with an object of size 0, or why the specification isn't well founded.
fn judge(alloc: Global, system: &System) -> Result<Vec<bool>, UnfoundedCause>
    requires sound { IsSound system.now }
    requires few { length system.now.names ≤ 64 }
    ensures ok { IfOk result (λ zero. IsFoundedBy system.now zero.items) }
    ensures cause { IfErr result (TellsCause system.now) }
{
    let some = mark(alloc, system, true)?;
    if let Some(class) = first_without_object(system, &some) {
        return Err(UnfoundedCause::NoObject(class));
    }
    let zero = mark(alloc, system, false)?;
    if let Some(node) = first_repeat(system, &zero) {
        return Err(UnfoundedCause::ZeroPart(node));
    }
    let rows = leads(alloc, system, &zero)?;
    if let Some(class) = first_round(&rows) {
        return Err(UnfoundedCause::ZeroLoop(class));
    }
    Ok(zero)
}

/// The first class without an object.
fn first_without_object(system: &System, some: &[bool]) -> Option<ClassId>
    requires sound { IsSound system.now }
    requires few { length system.now.names ≤ 64 }
    requires some { AreMarked system.now (Unit {0}) some.now }
    ensures found { IfSome result (λ c. IsLeast (LacksObject system.now) c.0) }
    ensures none { IfNone result (EachHasObject system.now) }
{
    for c in 0..system.class_count() {
        if !is_marked(some, system.body(ClassId(c))) {
            return Some(ClassId(c));
        }
    }
    None
}

/// The first counted node without high whose part has an object of size 0.
fn first_repeat(system: &System, zero: &[bool]) -> Option<ExprId>
    requires sound { IsSound system.now }
    requires zero { AreMarked system.now ⊥ zero.now }
    ensures found { IfSome result (λ e. IsLeast (RepeatsZero system.now) e.0) }
    ensures none { IfNone result ((e : ℕ) → ¬ RepeatsZero system.now e) }
{
    for e in 0..system.node_count() {
        if repeats_zero(system, zero, ExprId(e)) {
            return Some(ExprId(e));
        }
    }
    None
}

/// Whether the node is counted and has no high, and its part has an object of size 0.
fn repeats_zero(system: &System, zero: &[bool], e: ExprId) -> bool
    requires zero { AreMarked system.now ⊥ zero.now }
    requires in_range { e.0 < length system.now.nodes }
    ensures exact { IsTrue result ↔ RepeatsZero system.now e.0 }
{
    match system.node(e) {
        Expr::Seq(part) | Expr::Set(part) | Expr::Cyc(part) => {
            system.range(e).high.is_none() && is_marked(zero, *part)
        }
        _ => false,
    }
}
