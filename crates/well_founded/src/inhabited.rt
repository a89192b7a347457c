//! Which nodes have an object, and which have one of size 0.
ghost use Rattle.std.specs.Prelude.{◌≡◌, ℕ, ◌<◌, ◌↔◌, false, length, IsTrue, IfOk};
ghost use Rattle.std.specs.List.{list_any, list_all};
ghost use Rattle.well_founded.specs.EmptyObjects.{answer_at};
ghost use Rattle.class_system.specs.Sound.{IsSound};
ghost use Rattle.well_founded.specs.Foundedness.{Least};
ghost use Rattle.well_founded.specs.Rounds.{GetsAt, IsClosed};
ghost use Rattle.well_founded.specs.Marking.{IsMarked, AreMarked, unmarked_count};

use class_system::expr::Expr;
use class_system::ids::ExprId;
use class_system::system::System;
use std::alloc::{AllocError, Global};

/// Marks the nodes that have an object; where `atoms` is false, those that have one of size 0.
///
/// Takes one mark for each node. Rounds over all nodes go on until a round marks none.
pub fn mark(alloc: Global, system: &System, atoms: bool) -> Result<Vec<bool>, AllocError>
    requires sound { IsSound system.now }
    ensures { IfOk result (λ marks. AreMarked system.now (IsTrue atoms) marks.items) }
{
    let mut marks = vec![in alloc; false; system.node_count() as usize]?;
    while mark_more(system, atoms, &mut marks) {}
    Ok(marks)
}

/// One round over the nodes in order; whether it marked one.
fn mark_more(system: &System, atoms: bool, marks: &mut [bool]) -> bool
    requires sound { IsSound system.now }
    requires one_per_node { length marks.old ≡ length system.now.nodes }
    requires all_right { (e : ℕ) → IsMarked marks.old e → Least system.now (IsTrue atoms) e }
    ensures right { (e : ℕ) → IsMarked marks.new e → Least system.now (IsTrue atoms) e }
    ensures fewer { IsTrue result → unmarked_count marks.new < unmarked_count marks.old }
    ensures closed { result ≡ false → IsClosed system.now (IsTrue atoms) (IsMarked marks.new) }
{
    let mut marked = false;
    for e in 0..system.node_count() {
        if !is_marked(marks, ExprId(e)) && gets(system, atoms, marks, ExprId(e)) {
            marks[e as usize] = true;
            marked = true;
        }
    }
    marked
}

/// Whether a node gets an object from the marks of its parts and of the classes' bodies.
fn gets(system: &System, atoms: bool, marks: &[bool], e: ExprId) -> bool
    requires sound { IsSound system.now }
    requires in_range { e.0 < length system.now.nodes }
    ensures { IsTrue result ↔ GetsAt system.now (IsTrue atoms) (IsMarked marks.now) e.0 }
{
    match system.node(e) {
        Expr::Empty(_) => true,
        Expr::Atom(_) => atoms,
        Expr::Class(class) => is_marked(marks, system.body(*class)),
        Expr::Union(parts) => some_marked(marks, parts.items()),
        Expr::Product(parts) => all_marked(marks, parts.items()),
        Expr::Seq(part) | Expr::Set(part) | Expr::Cyc(part) => {
            system.range(e).low == 0 || is_marked(marks, *part)
        }
    }
}

/// Whether a node is marked.
pub fn is_marked(marks: &[bool], e: ExprId) -> bool
    ensures { result ≡ answer_at marks.now e.0 }
{
    matches!(marks.get(e.0 as usize), Some(true))
}

fn some_marked(marks: &[bool], parts: &[ExprId]) -> bool
    ensures { result ≡ list_any (λ part. answer_at marks.now part.0) parts.now }
{
    parts.iter().any(|part| is_marked(marks, *part))
}

fn all_marked(marks: &[bool], parts: &[ExprId]) -> bool
    ensures { result ≡ list_all (λ part. answer_at marks.now part.0) parts.now }
{
    parts.iter().all(|part| is_marked(marks, *part))
}
