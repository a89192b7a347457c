//! Where steps from class to class lead.
ghost use Rattle.std.specs.Prelude.{◌≡◌, ℕ, ◌≤◌, ◌↔◌, length, map, IfOk, IfSome, IfNone};
ghost use Rattle.class_system.specs.Views.{number};
ghost use Rattle.class_system.specs.Sound.{IsSound};
ghost use Rattle.well_founded.specs.Examination.{IsLeast};
ghost use Rattle.well_founded.specs.Foundedness.{Leads};
ghost use Rattle.well_founded.specs.Marking.{AreMarked};
ghost use Rattle.well_founded.specs.Ways.{IsIn, Points, BodyPoints, PointsRound};

use crate::class_set::ClassSet;
use crate::closure::close;
use crate::size_zero_references::{set_of, under};
use class_system::ids::{ClassId, ExprId};
use class_system::system::System;
use std::alloc::{AllocError, Global};

/// For each class, the classes that one or more steps lead to from it.
///
/// `zero` marks the nodes with an object of size 0. Takes one set for each node and each class.
pub fn leads(alloc: Global, system: &System, zero: &[bool]) -> Result<Vec<ClassSet>, AllocError>
    requires sound { IsSound system.now }
    requires few { length system.now.names ≤ 64 }
    requires zero { AreMarked system.now ⊥ zero.now }
    ensures few { IfOk result (λ rows. length rows.items ≤ 64) }
    ensures exact { IfOk result (λ rows. (c d : ℕ) → Points rows.items c d ↔ Leads system.now c d) }
{
    let sets = under(alloc, system, zero)?;
    let mut rows = steps(alloc, &sets, system.bodies())?;
    close(&mut rows);
    Ok(rows)
}

/// The sets of the classes' bodies.
fn steps(alloc: Global, sets: &[ClassSet], bodies: &[ExprId]) -> Result<Vec<ClassSet>, AllocError>
    ensures one_each { IfOk result (λ rows. length rows.items ≡ length bodies.now) }
    ensures exact { IfOk result (λ rows. (c d : ℕ) → Points rows.items c d
        ↔ BodyPoints sets.now (map number bodies.now) c d) }
{
    let mut rows = Vec::new(alloc);
    for body in bodies {
        rows.push(set_of(sets, *body))?;
    }
    Ok(rows)
}

/// The first class whose row has the class itself.
pub fn first_round(rows: &[ClassSet]) -> Option<ClassId>
    requires few { length rows.now ≤ 64 }
    ensures found { IfSome result (λ c. IsLeast (PointsRound rows.now) c.0) }
    ensures none { IfNone result ((c : ℕ) → ¬ PointsRound rows.now c) }
{
    for (c, row) in rows.iter().enumerate() {
        if row.contains(c as u32) {
            return Some(ClassId(c as u32));
        }
    }
    None
}
