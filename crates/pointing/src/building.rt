//! The nodes of the pointed specification, laid out task by task.
//!
//! The copy or the pointed form of a node becomes those of its parts, from left to right, and a
//! task that puts them together. Nothing recurses over an expression.
ghost use Rattle.std.specs.Prelude.{◌≡◌, ◌+◌, ◌<◌, ◌++◌, ◌∷◌, [], ℕ, List, Some, map, take, drop};
ghost use Rattle.std.specs.Prelude.{slice_get, length, IfOk, OnOk};
ghost use Rattle.bz_model.specs.Spec as model;
ghost use Rattle.pointing.specs.Forms.{all_forms, body_forms, parts_from};
ghost use Rattle.pointing.specs.Atoms.{is_atomic};
ghost use Rattle.pointing.specs.PointedForm.{pointed_parts, copied};
ghost use Rattle.pointing.specs.Building.{IsLayout, IsTaskDone, IsInside, alternative};
ghost use Rattle.pointing.specs.Building.{alternatives};
ghost use Rattle.pointing.specs.declared.tasks.Task.TheVariants.{Copy, Point};

use crate::atoms::{count_first, count_marked, is_marked};
use crate::layout::Layout;
use crate::tasks::{Task, Tasks, push_copies, push_points};
use bz_outside::word::Word;
use class_system::expr::Expr;
use class_system::ids::{ClassId, ExprId};
use class_system::system::System;
use std::alloc::{AllocError, Global};

/// Lays out the pointed forms of the bodies that have one, and the copies of all bodies.
///
/// `classes` and `nodes` tell which classes and which nodes have an object with an atom.
pub(crate) fn lay_out(
    alloc: Global,
    system: &System,
    classes: &[bool],
    nodes: &[bool],
    layout: &mut Layout,
) -> Result<(), AllocError>
    requires unlabelled { system.now.mode ≡ model.Mode.Unlabelled }
    requires classes { length classes.now ≡ length system.now.names }
    requires nodes { nodes.now ≡ map (is_atomic classes.now) (all_forms system.now) }
    ensures laid { OnOk result ((names : List (List ℕ)) → IsLayout names [] layout.old
        → IsLayout names (pointed_parts classes.now (parts_from (body_forms system.now))
        ++ map (copied classes.now) (body_forms system.now)) layout.new) }
{
    system.known();
    let bodies = system.bodies();
    let mut first = Vec::new(alloc);
    push_points(&mut first, bodies)?;
    push_copies(&mut first, bodies)?;
    let mut tasks = Tasks::new(alloc);
    tasks.push_all(&first)?;
    'tasks: for _ in 0..u64::MAX {
        let Some(task) = tasks.pop() else {
            return Ok(());
        };
        perform(alloc, system, classes, nodes, task, &mut tasks, layout)?;
    }
    Err(AllocError)
}

/// Does a task, or puts others in its place.
fn perform(
    alloc: Global,
    system: &System,
    classes: &[bool],
    nodes: &[bool],
    task: Task,
    tasks: &mut Tasks,
    layout: &mut Layout,
) -> Result<(), AllocError>
    requires unlabelled { system.now.mode ≡ model.Mode.Unlabelled }
    requires classes { length classes.now ≡ length system.now.names }
    requires nodes { nodes.now ≡ map (is_atomic classes.now) (all_forms system.now) }
    requires inside { IsInside (length system.now.nodes) task }
    ensures done { OnOk result (IsTaskDone system.now classes.now task tasks.old tasks.new
        layout.old layout.new) }
{
    match task {
        Task::Copy(e) => copy(alloc, system, classes, e, tasks, layout),
        Task::Point(e) => point(alloc, system, classes, nodes, e, tasks, layout),
        Task::Union(n) => layout.union(n),
        Task::Product(n) => layout.product(n),
        Task::Seq => layout.seq(),
        Task::Choice(n) => layout.choice(n),
    }
}

/// Lays out the copy of a leaf or a reference; the copy of another node becomes those of its parts.
fn copy(
    alloc: Global,
    system: &System,
    classes: &[bool],
    e: ExprId,
    tasks: &mut Tasks,
    layout: &mut Layout,
) -> Result<(), AllocError>
    requires unlabelled { system.now.mode ≡ model.Mode.Unlabelled }
    requires classes { length classes.now ≡ length system.now.names }
    requires inside { e.0 < length system.now.nodes }
    ensures done { OnOk result (IsTaskDone system.now classes.now (Copy e) tasks.old tasks.new
        layout.old layout.new) }
{
    system.known();
    match system.node(e) {
        Expr::Empty(word) => layout.leaf(Expr::Empty(Word::from_bytes(alloc, word.bytes())?)),
        Expr::Atom(word) => layout.leaf(Expr::Atom(Word::from_bytes(alloc, word.bytes())?)),
        Expr::Class(c) => {
            let class = count_first(classes, classes.len()) + c.0;
            layout.leaf(Expr::Class(ClassId(class)))
        }
        Expr::Union(parts) => {
            let count = parts.items().len();
            copy_parts(alloc, parts.items(), Task::Union(count), tasks)
        }
        Expr::Product(parts) => {
            let count = parts.items().len();
            copy_parts(alloc, parts.items(), Task::Product(count), tasks)
        }
        Expr::Seq(part) => tasks.push_all(&[Task::Copy(*part), Task::Seq]),
        Expr::Set(_) | Expr::Cyc(_) => unreachable!(),
    }
}

/// Puts the copies of some parts before a task that puts them together.
fn copy_parts(
    alloc: Global,
    parts: &[ExprId],
    together: Task,
    tasks: &mut Tasks,
) -> Result<(), AllocError>
    ensures put { OnOk result (tasks.new
        ≡ (map Copy parts.now ++ together ∷ []) ++ tasks.old) }
{
    let mut more = Vec::new(alloc);
    push_copies(&mut more, parts)?;
    more.push(together)?;
    tasks.push_all(&more)
}

/// Lays out the pointed form of an atom or a reference to a class with an atom; that of another
/// node becomes those of its parts.
fn point(
    alloc: Global,
    system: &System,
    classes: &[bool],
    nodes: &[bool],
    e: ExprId,
    tasks: &mut Tasks,
    layout: &mut Layout,
) -> Result<(), AllocError>
    requires unlabelled { system.now.mode ≡ model.Mode.Unlabelled }
    requires classes { length classes.now ≡ length system.now.names }
    requires nodes { nodes.now ≡ map (is_atomic classes.now) (all_forms system.now) }
    requires inside { e.0 < length system.now.nodes }
    ensures done { OnOk result (IsTaskDone system.now classes.now (Point e) tasks.old tasks.new
        layout.old layout.new) }
{
    system.known();
    match system.node(e) {
        Expr::Empty(_) => Ok(()),
        Expr::Atom(_) => layout.leaf(Expr::Atom(Word::from_bytes(alloc, b"mark")?)),
        Expr::Class(c) => {
            if !is_marked(classes, c.0) {
                return Ok(());
            }
            let class = count_first(classes, c.0 as usize);
            layout.leaf(Expr::Class(ClassId(class)))
        }
        Expr::Union(parts) => {
            let mut more = Vec::new(alloc);
            push_points(&mut more, parts.items())?;
            more.push(Task::Choice(count_marked(nodes, parts.items())))?;
            tasks.push_all(&more)
        }
        Expr::Product(parts) => {
            let mut more = alternatives(alloc, nodes, parts.items())?;
            more.push(Task::Choice(count_marked(nodes, parts.items())))?;
            tasks.push_all(&more)
        }
        Expr::Seq(part) => {
            if !is_marked(nodes, part.0) {
                return Ok(());
            }
            let (copied, pointed) = (Task::Copy(*part), Task::Point(*part));
            tasks.push_all(&[
                copied,
                Task::Seq,
                pointed,
                copied,
                Task::Seq,
                Task::Product(3),
            ])
        }
        Expr::Set(_) | Expr::Cyc(_) => unreachable!(),
    }
}

/// For each part with an atom, the product with this part pointed and the others copied.
fn alternatives(alloc: Global, nodes: &[bool], parts: &[ExprId]) -> Result<Vec<Task>, AllocError>
    ensures { IfOk result (λ tasks. tasks.items
        ≡ alternatives (length parts.now) nodes.now [] parts.now) }
{
    let mut tasks = Vec::new(alloc);
    for i in 0..parts.len() {
        if is_marked(nodes, parts[i].0) {
            push_alternative(&mut tasks, parts, i)?;
        }
    }
    Ok(tasks)
}

/// Appends the product with the part at a place pointed and the others copied.
fn push_alternative(tasks: &mut Vec<Task>, parts: &[ExprId], i: usize) -> Result<(), AllocError>
    requires there { i < length parts.now }
    ensures { OnOk result ((part : ExprId) → slice_get parts.now i ≡ Some part
        → tasks.new.items ≡ tasks.old.items
        ++ alternative (length parts.now) (take i parts.now) part (drop (i + 1) parts.now)) }
{
    push_copies(tasks, &parts[..i])?;
    tasks.push(Task::Point(parts[i]))?;
    push_copies(tasks, &parts[i + 1..])?;
    tasks.push(Task::Product(parts.len()))?;
    Ok(())
}
