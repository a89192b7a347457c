//! Which classes each node is on the way to with no atom beside.
ghost use Rattle.std.specs.Prelude.{ℕ, ◌<◌, ◌≤◌, ◌↔◌, ◌⊎◌, length, map, IfOk, IsTrue};
ghost use Rattle.class_system.specs.Views.{number};
ghost use Rattle.class_system.specs.Sound.{IsSound};
ghost use Rattle.well_founded.specs.Foundedness.{Under};
ghost use Rattle.well_founded.specs.Marking.{AreMarked, IsMarked};
ghost use Rattle.well_founded.specs.Rounds.{PassesAt};
ghost use Rattle.well_founded.specs.Ways.{IsIn, Points, SomePoints, OnePoints};

use crate::class_set::ClassSet;
use crate::inhabited::is_marked;
use class_system::expr::Expr;
use class_system::ids::ExprId;
use class_system::system::System;
use std::alloc::{AllocError, Global};

/// For each node, the classes that it is or holds a reference to with objects of size 0 beside it.
///
/// `zero` marks the nodes with an object of size 0. Takes one set for each node.
pub fn under(alloc: Global, system: &System, zero: &[bool]) -> Result<Vec<ClassSet>, AllocError>
    requires sound { IsSound system.now }
    requires few { length system.now.names ≤ 64 }
    requires zero { AreMarked system.now ⊥ zero.now }
    ensures { IfOk result (λ sets. (e d : ℕ) → Points sets.items e d ↔ Under system.now d e) }
{
    let mut sets = Vec::new(alloc);
    for e in 0..system.node_count() {
        sets.push(passes(system, zero, &sets, ExprId(e)))?;
    }
    Ok(sets)
}

/// The classes of one node, from those of its parts.
fn passes(system: &System, zero: &[bool], sets: &[ClassSet], e: ExprId) -> ClassSet
    requires sound { IsSound system.now }
    requires few { length system.now.names ≤ 64 }
    requires zero { AreMarked system.now ⊥ zero.now }
    requires in_range { e.0 < length system.now.nodes }
    ensures { (d : ℕ) → IsIn result d
        ↔ PassesAt system.now d (λ part. Points sets.now part d) e.0 }
{
    match system.node(e) {
        Expr::Empty(_) | Expr::Atom(_) => ClassSet::empty(),
        Expr::Class(class) => ClassSet::only(class.0),
        Expr::Union(parts) => of_some(sets, parts.items()),
        Expr::Product(parts) => of_one(zero, sets, parts.items()),
        Expr::Seq(part) | Expr::Set(part) | Expr::Cyc(part) => {
            of_counted(system.range(e).low, zero, sets, *part)
        }
    }
}

/// The set of a node; of none past the end.
pub fn set_of(sets: &[ClassSet], e: ExprId) -> ClassSet
    ensures { (d : ℕ) → IsIn result d ↔ Points sets.now e.0 d }
{
    match sets.get(e.0 as usize) {
        Some(set) => *set,
        None => ClassSet::empty(),
    }
}

/// The classes of the sets of all parts.
fn of_some(sets: &[ClassSet], parts: &[ExprId]) -> ClassSet
    ensures { (d : ℕ) → IsIn result d ↔ SomePoints sets.now (map number parts.now) d }
{
    let mut set = ClassSet::empty();
    for part in parts {
        set = set.union(set_of(sets, *part));
    }
    set
}

/// The classes of the sets of those parts beside which all parts have an object of size 0.
fn of_one(zero: &[bool], sets: &[ClassSet], parts: &[ExprId]) -> ClassSet
    ensures { (d : ℕ) → IsIn result d ↔ OnePoints zero.now sets.now (map number parts.now) d }
{
    let mut set = ClassSet::empty();
    let mut all_zero = true;
    for part in parts {
        let is_zero = is_marked(zero, *part);
        set = beside(is_zero, set, all_zero, set_of(sets, *part));
        all_zero = all_zero && is_zero;
    }
    set
}

/// The classes of the part's set, where the part may stand alone or with objects of size 0.
fn of_counted(low: u32, zero: &[bool], sets: &[ClassSet], part: ExprId) -> ClassSet
    ensures { (d : ℕ) → IsIn result d
        ↔ (((low ≤ 1) ⊎ IsMarked zero.now part.0) × Points sets.now part.0 d) }
{
    if low <= 1 || is_marked(zero, part) {
        set_of(sets, part)
    } else {
        ClassSet::empty()
    }
}

/// The first set where the part has an object of size 0, with the second where all before it have.
fn beside(zero: bool, before: ClassSet, all_zero: bool, own: ClassSet) -> ClassSet
    ensures { (d : ℕ) → IsIn result d
        ↔ ((IsTrue zero × IsIn before d) ⊎ (IsTrue all_zero × IsIn own d)) }
{
    let kept = if zero { before } else { ClassSet::empty() };
    let added = if all_zero { own } else { ClassSet::empty() };
    kept.union(added)
}
