//! Which classes and nodes have an object with an atom.
ghost use Rattle.std.specs.Prelude.{◌≡◌, ◌<◌, ◌≤◌, ℕ, List, Some, length, map, take, IfOk};
ghost use Rattle.std.specs.List.{list_any};
ghost use Rattle.bz_model.specs.Spec.{Node, Range, node_at};
ghost use Rattle.class_system.specs.Views.{number};
ghost use Rattle.well_founded.specs.EmptyObjects.{answer_at};
ghost use Rattle.pointing.specs.Forms.{Form, node_form, all_forms};
ghost use Rattle.pointing.specs.Atoms.{is_atomic, atomic_classes};
ghost use Rattle.pointing.specs.PointedForm.{how_many};

use class_system::expr::Expr;
use class_system::ids::ExprId;
use class_system::system::System;
use std::alloc::{AllocError, Global};

/// Whether the number is marked.
pub(crate) fn is_marked(marks: &[bool], number: u32) -> bool
    ensures { result ≡ answer_at marks.now number }
{
    matches!(marks.get(number as usize), Some(true))
}

/// How many of the parts are marked.
pub(crate) fn count_marked(marks: &[bool], parts: &[ExprId]) -> usize
    ensures count { result ≡ how_many (map (answer_at marks.now) (map number parts.now)) }
    ensures few { result ≤ length parts.now }
{
    let mut count: usize = 0;
    for part in parts {
        if is_marked(marks, part.0) {
            count += 1;
        }
    }
    count
}

/// How many of the first n marks are true.
pub(crate) fn count_first(marks: &[bool], n: usize) -> u32
    requires few { length marks.now ≤ 64 }
    ensures count { result ≡ how_many (take n marks.now) }
    ensures few { result ≤ 64 }
{
    let mut count: u32 = 0;
    for mark in &marks[..n.min(marks.len())] {
        if *mark {
            count += 1;
        }
    }
    count
}

/// Which classes have an object with an atom: as many rounds over all nodes as there are classes.
pub(crate) fn atomic_classes(alloc: Global, system: &System) -> Result<Vec<bool>, AllocError>
    ensures { IfOk result (λ marks. marks.items ≡ atomic_classes system.now) }
{
    system.known();
    let mut classes = vec![in alloc; false; system.class_count() as usize]?;
    for _round in 0..system.class_count() {
        let nodes = atomic_nodes(alloc, system, &classes)?;
        classes = body_marks(alloc, system, &nodes)?;
    }
    Ok(classes)
}

/// The marks of the classes' bodies.
fn body_marks(alloc: Global, system: &System, nodes: &[bool]) -> Result<Vec<bool>, AllocError>
    ensures { IfOk result (λ marks. marks.items ≡ map (answer_at nodes.now) system.now.bodies) }
{
    let mut marks = Vec::new(alloc);
    for body in system.bodies() {
        marks.push(is_marked(nodes, body.0))?;
    }
    Ok(marks)
}

/// Which nodes have an object with an atom, from the classes that have one.
pub(crate) fn atomic_nodes(
    alloc: Global,
    system: &System,
    classes: &[bool],
) -> Result<Vec<bool>, AllocError>
    ensures { IfOk result
        (λ marks. marks.items ≡ map (is_atomic classes.now) (all_forms system.now)) }
{
    system.known();
    let mut marks = Vec::new(alloc);
    for e in 0..system.node_count() {
        let mark = has_atom(system, classes, &marks, ExprId(e));
        marks.push(mark)?;
    }
    Ok(marks)
}

/// Whether a node has an object with an atom, from the marks of the classes and of the nodes before
/// it.
fn has_atom(system: &System, classes: &[bool], marks: &[bool], e: ExprId) -> bool
    requires in_range { e.0 < length system.now.nodes }
    ensures { (before : List Form) (n : Node) (r : Range)
        → marks.now ≡ map (is_atomic classes.now) before → node_at system.now e.0 ≡ Some n
        → result ≡ is_atomic classes.now (node_form before n r) }
{
    match system.node(e) {
        Expr::Empty(_) => false,
        Expr::Atom(_) => true,
        Expr::Class(c) => is_marked(classes, c.0),
        Expr::Union(parts) => some_marked(marks, parts.items()),
        Expr::Product(parts) => some_marked(marks, parts.items()),
        Expr::Seq(part) => is_marked(marks, part.0),
        Expr::Set(_) | Expr::Cyc(_) => false,
    }
}

/// Whether one of the parts is marked.
fn some_marked(marks: &[bool], parts: &[ExprId]) -> bool
    ensures { result ≡ list_any (λ part. answer_at marks.now part.0) parts.now }
{
    parts.iter().any(|part| is_marked(marks, part.0))
}
